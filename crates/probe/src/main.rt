//! Answers the commands on standard input, one to a line, on standard output.
#![tactic(auto)]

ghost use Rattle.std.specs.Io.{ReadsAtMost};

mod begun;
mod desk;

use begun::{Begun, take_block};
use desk::Desk;
use std::alloc::Global;
use std::io;
use std::io::{ErrorKind, Read};
use std::rt::{Stdin, Stdout};

const BLOCK: usize = 65536;

// One read, made again where a signal interrupts it; 0 at the end of the input. Every loop is proved to end, so reads
// are counted.
fn read_block(input: &mut Stdin, block: &mut [u8]) -> io::Result<usize>
    ensures { ReadsAtMost result block.new }
{
    for _ in 0..u64::MAX {
        match input.read(block) {
            Err(e) if e.kind() == ErrorKind::Interrupted => {}
            done => return done,
        }
    }
    Ok(0)
}

// Replies are written before more input is awaited, so that a caller may wait for each.
fn run(heap: Global, input: &mut Stdin, output: &mut Stdout) -> io::Result<()> {
    let mut block = [0u8; BLOCK];
    let mut begun = Begun::new(heap);
    let mut desk = Desk::new(heap, output)?;
    for _ in 0..u64::MAX {
        let count = read_block(input, &mut block)?;
        if count == 0 {
            break;
        }
        take_block(&block[..count], &mut begun, &mut desk)?;
        desk.flush()?;
    }
    begun.finish(&mut desk)?;
    desk.flush()
}

fn main(rt: HostRuntime) -> io::Result<()> {
    run(rt.alloc(), &mut rt.stdin(), &mut rt.stdout())
}
