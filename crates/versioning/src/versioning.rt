//! The first form that takes a text.
ghost use Rattle.std.specs.Prelude.{◌≡◌, ℕ, List};
ghost use Rattle.texts.specs.Answers.{told};
ghost use Rattle.parsers.specs.Answers.{parsed_by, new_by, NewReads};
ghost use Rattle.standard.specs.Reading.{ideal_of};
ghost use Rattle.standard.specs.Theorems.{Ideal as IdealText};
ghost use Rattle.version.specs.Grammar.{General as GeneralText};
ghost use Rattle.version.specs.Reading.{general_of};
ghost use Rattle.mess.specs.Grammar.{Complex as ComplexText};
ghost use Rattle.mess.specs.Reading.{complex_of};
ghost use Rattle.versioning.specs.First.{first_of, further, first_answer, FirstForm, RefusedNoForm, Furthest};
ghost use Rattle.versioning.specs.Labels.{parts_in, read_in, ideal_nth, nth_in};

use fault::LabelFault;
use ideals::semver::SemVer;
use mess::mess::Mess;
use version::version::Version;

/// A label that was read: its form, and its parts as numbers and places in its text.
#[derive(Clone, Copy)]
pub enum Versioning {
    Ideal(SemVer),
    General(Version),
    Complex(Mess),
}

/// Of two faults of one text, the one that stopped further on.
fn furthest(first: LabelFault, second: LabelFault) -> LabelFault
    ensures { result ≡ further first second }
{
    match (first, second) {
        (LabelFault::NoForm(m), LabelFault::NoForm(n)) => LabelFault::NoForm(m.max(n)),
        (LabelFault::NoForm(m), _) => LabelFault::NoForm(m),
        (_, fault) => fault,
    }
}

impl Versioning {
    /// The first form that reads something in front of a text, and the bytes read, or the fault: 1 for no bytes, 2 for
    /// more than 128, 3 with place 0 where no form reads anything.
    pub fn parse(text: &[u8]) -> Result<(Versioning, usize), LabelFault>
        ensures { told (read_in text.now) result ≡ parsed_by (first_of ideal_of general_of complex_of) text.now }
    {
        if let Ok((semver, read)) = SemVer::parse(text) {
            return Ok((Versioning::Ideal(semver), read));
        }
        if let Ok((version, read)) = Version::parse(text) {
            return Ok((Versioning::General(version), read));
        }
        let (mess, read) = Mess::parse(text)?;
        Ok((Versioning::Complex(mess), read))
    }

    /// The label that a text is, by the first of Ideal, General and Complex that takes it whole, or the fault: 1 for no
    /// bytes, 2 for more than 128, 3 with the most bytes that a form read where none takes it whole.
    pub fn new(text: &[u8]) -> Result<Versioning, LabelFault>
        ensures answer { told (parts_in text.now) result ≡ first_answer (new_by ideal_of text.now) (new_by general_of text.now) (new_by complex_of text.now) }
        ensures reading { NewReads (FirstForm IdealText GeneralText ComplexText) text.now (told (parts_in text.now) result) }
        ensures refused { RefusedNoForm IdealText GeneralText ComplexText text.now (told (parts_in text.now) result) }
        ensures stopped { Furthest ideal_of general_of complex_of text.now (told (parts_in text.now) result) }
    {
        match SemVer::new(text) {
            Ok(semver) => Ok(Versioning::Ideal(semver)),
            Err(ideal) => match Version::new(text) {
                Ok(version) => Ok(Versioning::General(version)),
                Err(general) => match Mess::new(text) {
                    Ok(mess) => Ok(Versioning::Complex(mess)),
                    Err(complex) => Err(furthest(ideal, furthest(general, complex))),
                },
            },
        }
    }

    /// The number at a position: of an Ideal major, minor or patch; of the others their `nth`.
    pub fn nth(&self, n: usize) -> Option<u32>
        ensures { (text : List ℕ) → result ≡ nth_in (parts_in text self.now) n }
    {
        match self {
            Versioning::Ideal(semver) => semver_nth(semver, n),
            Versioning::General(version) => version.nth(n),
            Versioning::Complex(mess) => mess.nth(n),
        }
    }
}

/// Major, minor or patch.
pub fn semver_nth(semver: &SemVer, n: usize) -> Option<u32>
    ensures { result ≡ ideal_nth semver.now.major semver.now.minor semver.now.patch n }
{
    match n {
        0 => Some(semver.major),
        1 => Some(semver.minor),
        2 => Some(semver.patch),
        _ => None,
    }
}
