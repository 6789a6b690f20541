//! The answer of each command.
ghost use Rattle.std.specs.Prelude.{◌≡◌};
ghost use Rattle.protocol.specs.Answers.{said_in, new_answer, parse_answer, compare_answer};

use crate::answer::{Answer, Refusal};
use crate::asked::Form;
use ideals::ideal::IdealIn;
use ideals::semver::SemVer;

/// `new`: the parts of the label that a text is.
pub fn answer_new(form: Form, text: &[u8]) -> Result<Answer, Refusal>
    ensures { said_in text.now result ≡ new_answer form text.now }
{
    match form {
        Form::SemVer => Ok(Answer::Parts(SemVer::new(text)?)),
    }
}

/// `parse`: the bytes read and the parts of the label in front of a text.
pub fn answer_parse(form: Form, text: &[u8]) -> Result<Answer, Refusal>
    ensures { said_in text.now result ≡ parse_answer form text.now }
{
    match form {
        Form::SemVer => {
            let (semver, count) = SemVer::parse(text)?;
            Ok(Answer::Read(count, semver))
        }
    }
}

/// `cmpf`: how two labels of a form compare.
pub fn answer_compare(form: Form, first: &[u8], second: &[u8]) -> Result<Answer, Refusal>
    ensures { said_in first.now result ≡ compare_answer form first.now second.now }
{
    match form {
        Form::SemVer => compare_semver(first, second),
    }
}

fn compare_semver(first: &[u8], second: &[u8]) -> Result<Answer, Refusal>
    ensures { said_in first.now result ≡ compare_answer (Form.SemVer) first.now second.now }
{
    let a = SemVer::new(first)?;
    let b = SemVer::new(second)?;
    let left = IdealIn {
        text: first,
        semver: &a,
    };
    let right = IdealIn {
        text: second,
        semver: &b,
    };
    Ok(Answer::Order(left.cmp(&right)))
}
