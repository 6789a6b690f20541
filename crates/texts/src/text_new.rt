ghost use Rattle.std.specs.Prelude.{◌≡◌, take};
ghost use Rattle.texts.specs.Texts.{bytes_of};
ghost use Rattle.texts.specs.Answers.{told, entering};

use crate::text::Text;
use fault::LabelFault;

/// The longest text that is read as a label.
pub const LONGEST: usize = 128;

/// The one length check: 1 to 128 bytes, or the fault of the length.
pub fn check_length(bytes: &[u8]) -> Result<(), LabelFault>
    ensures { told (λ _. bytes.now) result ≡ entering bytes.now }
{
    if bytes.is_empty() {
        return Err(LabelFault::Empty);
    }
    if bytes.len() > LONGEST {
        return Err(LabelFault::TooLong(LONGEST));
    }
    Ok(())
}

impl<'a> Text<'a> {
    /// A text that has passed the check; of a longer one the front.
    pub fn new(bytes: &'a [u8]) -> Text<'a>
        ensures { bytes_of result ≡ take 128 bytes.now }
    {
        Text {
            bytes: &bytes[..LONGEST.min(bytes.len())],
        }
    }

    pub fn bytes(&self) -> &'a [u8]
        ensures { result.now ≡ bytes_of self.now }
    {
        self.bytes
    }
}
