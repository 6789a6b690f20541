//! Labels of any form beside their texts: how every two compare, and which are the same.
ghost use Rattle.std.specs.Prelude.{◌≡◌, true};
ghost use Rattle.standard.specs.Theorems.{Iff};
ghost use Rattle.mixed.specs.Labels.{label_order, HigherEpoch, AmongIdeals, equal_of, SameLabel, Agreeing};
ghost use Rattle.mixed.specs.Views.{parts_of, form_parts, labelwise, same};
ghost use Rattle.mixed.specs.Equality.{same_partial, same_equivalence};

use crate::semver::cmp_version;
use crate::semver_mess::cmp_mess as cmp_ideal_mess;
use crate::version_mess::cmp_mess as cmp_general_mess;
use crate::whole::ComplexIn;
use general::general::VersionIn;
use ideals::ideal::IdealIn;
use order::{ElementOrder, compare_texts};
use std::cmp::Ordering;
use versioning::versioning::Versioning;

/// A label of any form: its parts beside its text.
#[derive(Clone, Copy)]
pub struct VersioningIn<'a> {
    pub text: &'a [u8],
    pub versioning: &'a Versioning,
}

/// A label beside its text, by its form.
#[derive(Clone, Copy)]
pub enum Form<'a> {
    Ideal(IdealIn<'a>),
    General(VersionIn<'a>),
    Complex(ComplexIn<'a>),
}

impl<'a> VersioningIn<'a> {
    /// The label by its form.
    pub fn form(&self) -> Form<'a>
        ensures { form_parts result ≡ parts_of self.now }
    {
        let text = self.text;
        match self.versioning {
            Versioning::Ideal(semver) => Form::Ideal(IdealIn { text, semver }),
            Versioning::General(version) => Form::General(VersionIn { text, version }),
            Versioning::Complex(mess) => Form::Complex(ComplexIn { text, mess }),
        }
    }

    /// How two labels compare, form by form.
    fn cmp_forms(&self, other: &VersioningIn<'_>) -> Ordering
        ensures { result ≡ label_order (parts_of self.now) (parts_of other.now) }
    {
        match (self.form(), other.form()) {
            (Form::Ideal(a), Form::Ideal(b)) => a.cmp(&b),
            (Form::Ideal(a), Form::General(b)) => cmp_version(&a, &b),
            (Form::Ideal(a), Form::Complex(b)) => cmp_ideal_mess(&a, &b),
            (Form::General(a), Form::Ideal(b)) => cmp_version(&b, &a).reverse(),
            (Form::General(a), Form::General(b)) => a.cmp(&b),
            (Form::General(a), Form::Complex(b)) => cmp_general_mess(&a, &b),
            (Form::Complex(a), Form::Ideal(b)) => cmp_ideal_mess(&b, &a).reverse(),
            (Form::Complex(a), Form::General(b)) => cmp_general_mess(&b, &a).reverse(),
            (Form::Complex(a), Form::Complex(b)) => a.levels().cmp(&b.levels()),
        }
    }

    /// How two labels compare.
    pub fn cmp(&self, other: &VersioningIn<'_>) -> Ordering
        ensures answer { result ≡ label_order (parts_of self.now) (parts_of other.now) }
        ensures epochs { HigherEpoch (parts_of self.now) (parts_of other.now) result }
        ensures standard { AmongIdeals (parts_of self.now) (parts_of other.now) result }
    {
        self.cmp_forms(other)
    }
}

impl<'a> ElementOrder for VersioningIn<'a> {
    ghost order = { labelwise };

    fn compare(&self, other: &VersioningIn<'a>) -> Ordering {
        self.cmp(other)
    }
}

/// The equality that a rule asks for: the same form; Ideals agree before any plus sign, others in the whole text.
impl<'a> PartialEq for VersioningIn<'a> {
    ghost eq = { same };

    ghost laws = { same_partial };

    fn eq(&self, other: &VersioningIn<'a>) -> bool {
        match (self.form(), other.form()) {
            (Form::Ideal(a), Form::Ideal(b)) => a.cmp(&b).is_eq(),
            (Form::General(_), Form::General(_)) | (Form::Complex(_), Form::Complex(_)) => {
                // texts are compared through the one list comparison
                compare_texts(self.text, other.text).is_eq()
            }
            _ => false,
        }
    }
}

impl<'a> Eq for VersioningIn<'a> {
    ghost laws = { same_equivalence };
}

impl<'a> VersioningIn<'a> {
    /// The equality that a rule asks for, with what it says of two labels.
    pub fn eq(&self, other: &VersioningIn<'_>) -> bool
        ensures answer { result ≡ equal_of self.now.text.now other.now.text.now (parts_of self.now) (parts_of other.now) }
        ensures same { Iff (result ≡ true) (SameLabel self.now.text.now other.now.text.now (parts_of self.now) (parts_of other.now)) }
        ensures agreement { Agreeing self.now.text.now other.now.text.now (parts_of self.now) (parts_of other.now) result }
    {
        PartialEq::eq(self, other)
    }
}
