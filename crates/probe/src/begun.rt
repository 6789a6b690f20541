//! Cutting blocks of input into lines.
use crate::desk::Desk;
use lines::split::line_end;
use std::alloc::{AllocError, Global};
use std::io;

// The longest line.
const LONGEST: usize = 300000;

/// The part of a line that came in earlier blocks. Of a line that is too long only the parts that fit are kept, and a flag says
/// so: to keep one byte more than the longest, the front of the next part may ask the heap for twice the room.
#[derive(Drop)]
pub struct Begun {
    bytes: Vec<u8>,
    is_long: bool,
}

impl Begun {
    pub fn new(heap: Global) -> Begun {
        Begun {
            bytes: Vec::new(heap),
            is_long: false,
        }
    }

    fn is_empty(&self) -> bool {
        self.bytes.is_empty() && !self.is_long
    }

    // Goes on with the line.
    fn add(&mut self, part: &[u8]) -> Result<(), AllocError> {
        let room = LONGEST.saturating_sub(self.bytes.len());
        if self.is_long || part.len() > room {
            self.is_long = true;
            return Ok(());
        }
        self.bytes.extend_from_slice(part)
    }

    // Ends the line.
    fn end(&mut self, desk: &mut Desk<'_>) -> io::Result<()> {
        if self.is_long {
            desk.pass_over(self.bytes.as_slice())?;
        } else {
            desk.answer(self.bytes.as_slice())?;
        }
        self.bytes.clear();
        self.is_long = false;
        Ok(())
    }

    /// Ends the input, whose last line may have no newline.
    pub fn finish(&mut self, desk: &mut Desk<'_>) -> io::Result<()> {
        if self.is_empty() {
            Ok(())
        } else {
            self.end(desk)
        }
    }
}

/// Answers each line that ends in a block, and keeps what is left.
pub fn take_block(block: &[u8], begun: &mut Begun, desk: &mut Desk<'_>) -> io::Result<()> {
    // not by `split_inclusive`: what ends a line is the contract of `line_end`
    let mut rest = block;
    while let Some(end) = line_end(rest, 0) {
        let line = &rest[..end];
        if begun.is_empty() {
            desk.answer(line)?;
        } else {
            begun.add(line)?;
            begun.end(desk)?;
        }
        rest = &rest[end + 1..];
    }
    begun.add(rest)?;
    Ok(())
}
