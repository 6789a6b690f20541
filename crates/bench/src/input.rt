//! Where the job comes from.
use crate::answers::answer;
use crate::words::USAGE;
use std::io::{BufRead, BufReader};
use std::{env, fs, io};

/// Does the job in the file that the one argument names, or else the one on standard input.
pub fn run(rt: &HostRuntime) -> io::Result<()> {
    let mut args = env::args(rt)?;
    let _program = args.next();
    match (args.next(), args.next()) {
        (None, _) => from_input(rt),
        (Some(path), None) => from_file(rt, path.as_str()),
        (Some(_), Some(_)) => {
            eprintln!(rt; "{USAGE}")?;
            Err(io::Error::other("more than one argument"))
        }
    }
}

fn from_input(rt: &HostRuntime) -> io::Result<()> {
    let lines = do_lines(rt, BufReader::new(rt.alloc(), rt.stdin())?)?;
    if lines == 0 {
        println!(rt; "{USAGE}")?;
    }
    Ok(())
}

fn from_file(rt: &HostRuntime, path: &str) -> io::Result<()> {
    match fs::open(rt, path) {
        Ok(file) => {
            let _lines = do_lines(rt, BufReader::new(rt.alloc(), file)?)?;
            Ok(())
        }
        Err(e) => {
            eprintln!(rt; "bench: the job {path} cannot be opened")?;
            Err(e)
        }
    }
}

/// Does a job line by line, and says how many lines there were.
fn do_lines<R: BufRead + Drop>(rt: &HostRuntime, reader: R) -> io::Result<u64> {
    let mut count: u64 = 0;
    for line in reader.split(rt.alloc(), b'\n') {
        answer(rt, line?.as_slice())?;
        count = count.saturating_add(1);
    }
    Ok(count)
}
