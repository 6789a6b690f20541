//! What can be written, and lists of it.
ghost use Rattle.std.specs.Prelude.{◌≡◌, ℕ, List};
ghost use Rattle.written.specs.Written.{Adds, comma_before, list_text, option_text};

use order::Parts;
use std::alloc::AllocError;

/// What can be written.
pub trait Writable {
    ghost text: { Self → List ℕ };

    /// Adds its text.
    fn write(&self, out: &mut Vec<u8>) -> Result<(), AllocError>
        ensures { Adds result out.old.items out.new.items (text self.now) };
}

/// A text, as it stands.
impl<'a> Writable for &'a [u8] {
    ghost text = { λ s. s.now };

    fn write(&self, out: &mut Vec<u8>) -> Result<(), AllocError> {
        out.extend_from_slice(*self)
    }
}

/// What may be absent: `_` where it is.
impl<T: Writable> Writable for Option<T> {
    ghost text = { λ x. option_text T.text x };

    fn write(&self, out: &mut Vec<u8>) -> Result<(), AllocError> {
        match self {
            Some(x) => x.write(out),
            None => out.extend_from_slice(b"_"),
        }
    }
}

// A comma, before every part of a list but the first.
fn write_comma(out: &mut Vec<u8>, i: usize) -> Result<(), AllocError>
    ensures { Adds result out.old.items out.new.items (comma_before i) }
{
    if i > 0 {
        out.extend_from_slice(b",")
    } else {
        Ok(())
    }
}

/// Adds the parts of a list, joined by commas: their texts, whatever function of their values these are.
pub fn write_list<L: Parts>(out: &mut Vec<u8>, list: &L) -> Result<(), AllocError>
where
    L::Part: Writable,
    ensures { (text : L.Parts.each.Value → List ℕ) → ((x : _) → L.Part.Writable.text x ≡ text (L.Parts.each.value x)) → Adds result out.old.items out.new.items (list_text text (L.Parts.parts list.now)) }
{
    // `Parts` hands its parts out by index, and the index says where a comma stands.
    for i in 0..list.len() {
        write_comma(out, i)?;
        list.part(i).write(out)?;
    }
    Ok(())
}
