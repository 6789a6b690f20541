//! Writing Complexes.
ghost use Rattle.std.specs.Prelude.{◌≡◌};
ghost use Rattle.std.specs.List.{flat_map};
ghost use Rattle.word.specs.Words.{written as digits_of, word_of};
ghost use Rattle.mess.specs.Said.{says};
ghost use Rattle.convert.specs.Said.{level_said, mess_said, signed_said};
ghost use Rattle.written.specs.Written.{Adds, mchunk_text, level_text, further_text, complex_text};

use crate::writable::{Writable, write_list};
use convert::level::Level;
use convert::levels::Levels;
use mess::mchunk::MChunk;
use mess::sep::Sep;
use std::alloc::AllocError;
use word::Word;

// The digits of a number that may be absent: unlike what an Option writes, nothing where it is.
fn write_digits(out: &mut Vec<u8>, number: Option<u32>) -> Result<(), AllocError>
    ensures { Adds result out.old.items out.new.items (digits_of number) }
{
    match number {
        Some(number) => number.write(out),
        None => Ok(()),
    }
}

/// The run of an MChunk.
impl<'a> Writable for Word<'a> {
    ghost text = { word_of };

    fn write(&self, out: &mut Vec<u8>) -> Result<(), AllocError> {
        write_digits(out, self.front)?;
        self.middle.write(out)?;
        write_digits(out, self.back)
    }
}

impl<'a> Writable for MChunk<Word<'a>> {
    ghost text = { λ c. mchunk_text (says c) };

    fn write(&self, out: &mut Vec<u8>) -> Result<(), AllocError> {
        match self {
            MChunk::Digits(number, run) => {
                out.extend_from_slice(b"D:")?;
                number.write(out)?;
                out.push(b':')?;
                run.write(out)
            }
            MChunk::Rev(number, run) => {
                out.extend_from_slice(b"R:")?;
                number.write(out)?;
                out.push(b':')?;
                run.write(out)
            }
            MChunk::Plain(run) => {
                out.extend_from_slice(b"P:")?;
                run.write(out)
            }
        }
    }
}

/// The MChunks of a level.
impl<'a> Writable for Level<'a> {
    ghost text = { λ x. level_text (level_said x) };

    fn write(&self, out: &mut Vec<u8>) -> Result<(), AllocError> {
        write_list(out, self)
    }
}

/// A further level behind its sign.
impl<'a> Writable for (Sep, Level<'a>) {
    ghost text = { λ x. further_text (signed_said x) };

    fn write(&self, out: &mut Vec<u8>) -> Result<(), AllocError> {
        out.push(b';')?;
        out.push(u8::from(self.0))?;
        out.push(b';')?;
        self.1.write(out)
    }
}

// The levels behind the first.
fn write_levels(out: &mut Vec<u8>, complex: Levels<'_>) -> Result<(), AllocError>
    ensures { Adds result out.old.items out.new.items (flat_map further_text (mess_said complex.entry).further) }
{
    for level in (0..complex.further()).map_while(|i| complex.level(i)) {
        level.write(out)?;
    }
    Ok(())
}

impl<'a> Writable for Levels<'a> {
    ghost text = { λ x. complex_text (mess_said x) };

    fn write(&self, out: &mut Vec<u8>) -> Result<(), AllocError> {
        out.extend_from_slice(b"mess;")?;
        self.first().write(out)?;
        write_levels(out, *self)
    }
}
