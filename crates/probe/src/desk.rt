//! What answers lines, and keeps replies until many can be written at once.
use replies::replying::{Rooms, pass_over, reply};
use std::alloc::{AllocError, Global};
use std::io;
use std::io::Write;
use std::rt::Stdout;

// The longest text.
const ROOM: usize = 70000;

// As many bytes are written at once.
const FULL: usize = 65536;

/// Where replies go, those that are not written yet, and the room for two texts.
#[derive(Drop)]
pub struct Desk<'a> {
    output: &'a mut Stdout,
    out: Vec<u8>,
    one: Vec<u8>,
    other: Vec<u8>,
}

impl<'a> Desk<'a> {
    pub fn new(heap: Global, output: &'a mut Stdout) -> Result<Desk<'a>, AllocError> {
        let out = Vec::with_capacity(heap, 2 * FULL)?;
        let one = vec![in heap; 0; ROOM]?;
        let other = vec![in heap; 0; ROOM]?;
        Ok(Desk {
            output,
            out,
            one,
            other,
        })
    }

    /// Answers a line.
    pub fn answer(&mut self, line: &[u8]) -> io::Result<()> {
        let rooms = Rooms {
            one: self.one.as_mut_slice(),
            other: self.other.as_mut_slice(),
        };
        reply(&mut self.out, line, rooms)?;
        self.flush_full()
    }

    /// Answers a line that was too long to be kept, by its first bytes.
    pub fn pass_over(&mut self, front: &[u8]) -> io::Result<()> {
        pass_over(&mut self.out, front)?;
        self.flush_full()
    }

    fn flush_full(&mut self) -> io::Result<()> {
        if self.out.len() >= FULL {
            self.flush()
        } else {
            Ok(())
        }
    }

    /// Writes the replies.
    pub fn flush(&mut self) -> io::Result<()> {
        self.output.write_all(self.out.as_slice())?;
        self.out.clear();
        Ok(())
    }
}
