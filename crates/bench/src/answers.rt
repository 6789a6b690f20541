//! What came of each line.
use crate::refusal::refuse;
use crate::words::plain;
use chunk::chunk::Chunk;
use chunk::chunks::ChunksIn;
use ideals::ideal::IdealIn;
use ideals::semver::SemVer;
use job::against::{Verdict, against};
use job::command::{Command, without_return};
use lines::shown::shown;
use std::io;

/// Prints a line, and below it what came of it. Blank lines are passed over.
pub fn answer(rt: &HostRuntime, line: &[u8]) -> io::Result<()> {
    let line = without_return(line);
    let Some(command) = Command::new(line) else {
        return Ok(());
    };
    rt.println(plain(rt.alloc(), line)?)?;
    match command {
        Command::Comment => Ok(()),
        Command::Label(text) => label(rt, text),
        Command::Against(first, second) => compared(rt, first, second),
        Command::Unknown => println!(rt; "  unknown command; the line is passed over"),
    }
}

fn label(rt: &HostRuntime, text: &[u8]) -> io::Result<()> {
    match SemVer::new(text) {
        Ok(semver) => parts(
            rt,
            &IdealIn {
                text,
                semver: &semver,
            },
        ),
        Err(fault) => refuse(rt, "  refused: ", text, fault),
    }
}

fn parts(rt: &HostRuntime, label: &IdealIn<'_>) -> io::Result<()> {
    let semver = label.semver;
    println!(rt; "  form: Ideal")?;
    println!(rt; "  major: {}", semver.major)?;
    println!(rt; "  minor: {}", semver.minor)?;
    println!(rt; "  patch: {}", semver.patch)?;
    match label.release() {
        Some(release) => identifiers(rt, &release)?,
        None => println!(rt; "  Release: none")?,
    }
    match label.meta() {
        Some(meta) => println!(rt; "  metadata: {}", shown(rt.alloc(), meta)?),
        None => println!(rt; "  metadata: none"),
    }
}

fn identifiers(rt: &HostRuntime, release: &ChunksIn<'_>) -> io::Result<()> {
    println!(rt; "  Release:")?;
    for chunk in (0..release.len()).map_while(|i| release.get(i)) {
        match chunk {
            Chunk::Numeric(number) => println!(rt; "    number {number}")?,
            Chunk::Alphanum(text) => println!(rt; "    text {}", shown(rt.alloc(), text)?)?,
        }
    }
    Ok(())
}

fn compared(rt: &HostRuntime, first: &[u8], second: &[u8]) -> io::Result<()> {
    match against(first, second) {
        Ok(Verdict::First) => println!(rt; "  the first is later: {}", shown(rt.alloc(), first)?),
        Ok(Verdict::Second) => println!(rt;
            "  the second is later: {}",
            shown(rt.alloc(), second)?
        ),
        Ok(Verdict::Neither) => println!(rt; "  neither is later: they agree before any metadata"),
        Err(refusals) => {
            if let Some(fault) = refusals.first {
                refuse(rt, "  the first is refused: ", first, fault)?;
            }
            if let Some(fault) = refusals.second {
                refuse(rt, "  the second is refused: ", second, fault)?;
            }
            Ok(())
        }
    }
}
