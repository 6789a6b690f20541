//! What a line is answered.
ghost use Rattle.std.specs.Prelude.{◌≡◌};
ghost use Rattle.protocol.specs.declared.answer.Refusal.TheVariants.{Bad, Label};

use crate::asked::BadCommand;
use fault::LabelFault;
use ideals::semver::SemVer;
use std::cmp::Ordering;

/// An answer; the places of its parts are in the text that was read.
#[derive(Clone, Copy)]
pub enum Answer {
    Parts(SemVer),
    /// The bytes read, and the parts.
    Read(usize, SemVer),
    Order(Ordering),
}

/// Why a line that asks something gets no answer.
#[derive(Clone, Copy)]
pub enum Refusal {
    /// No command that is known.
    Bad,
    Label(LabelFault),
}

impl From<BadCommand> for Refusal {
    ghost from_gives = { λ _ r. r ≡ Bad };

    fn from(_: BadCommand) -> Refusal {
        Refusal::Bad
    }
}

impl From<LabelFault> for Refusal {
    ghost from_gives = { λ fault r. r ≡ Label fault };

    fn from(fault: LabelFault) -> Refusal {
        Refusal::Label(fault)
    }
}
