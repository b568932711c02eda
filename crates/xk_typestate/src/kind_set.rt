//! Sets of kinds.

ghost use Rattle.std.specs.Prelude.{◌≡◌, ◌↔◌, ◌⊎◌, IsTrue};
ghost use Rattle.xk_types.specs.declared.rules.Kind.{Kind};
ghost use Rattle.xk_typestate.specs.KindSet.{kinds_have, kinds_with, no_kinds, kind_bit};

use std::marker::Model;
use xk_types::Kind;

/// The five kinds, in the order in which refusals are looked for.
pub(crate) const KINDS: [Kind; 5] = [
    Kind::Unset,
    Kind::Number,
    Kind::Live,
    Kind::Resumed,
    Kind::Out,
];

/// A set of the five kinds.
#[derive(Clone, Copy, Debug, PartialEq, Eq)]
pub struct KindSet {
    /// One bit for each kind that is one of the set.
    bits: u8,
}

impl Model for KindSet {
    ghost use Rattle.std.specs.Prelude.{◌<◌};
    ghost use Rattle.xk_typestate.specs.KindSet.{KindsValue, kinds_of, bits_of};
    ghost use Rattle.xk_typestate.specs.Bits.{bits_back};

    ghost Value = { KindsValue };

    ghost view = { λ s. kinds_of s.bits };

    ghost invariant = { λ s. s.bits < 32 };

    ghost inverse = { λ s. record { bits = bits_of s } };

    ghost inverse_ok = { λ s h i. record { bits = bits_back s.bits h i } };
}

/// The bit that stands for a kind.
fn bit(kind: Kind) -> u8
    ensures { result ≡ kind_bit kind }
{
    match kind {
        Kind::Unset => 1,
        Kind::Number => 2,
        Kind::Live => 4,
        Kind::Resumed => 8,
        Kind::Out => 16,
    }
}

impl KindSet {
    /// The set without a kind.
    pub fn empty() -> KindSet
        ensures made { result ≡ no_kinds }
        ensures has { (k : Kind) → ¬ (IsTrue (kinds_have result k)) }
    {
        KindSet { bits: 0 }
    }

    /// The set of one kind.
    pub fn of(kind: Kind) -> KindSet
        ensures { (k : Kind) → IsTrue (kinds_have result k) ↔ (k ≡ kind) }
    {
        KindSet::empty().with(kind)
    }

    /// The set with one kind more.
    pub fn with(self, kind: Kind) -> KindSet
        ensures made { result ≡ kinds_with self kind }
        ensures has { (k : Kind)
            → IsTrue (kinds_have result k) ↔ ((k ≡ kind) ⊎ IsTrue (kinds_have self k)) }
    {
        KindSet {
            bits: self.bits | bit(kind),
        }
    }

    /// Whether the kind is one of the set.
    pub fn contains(self, kind: Kind) -> bool
        ensures { result ≡ kinds_have self kind }
    {
        self.bits & bit(kind) != 0
    }

    /// Whether no kind is one of the set.
    pub fn is_empty(self) -> bool
        ensures { IsTrue result ↔ ((k : Kind) → ¬ (IsTrue (kinds_have self k))) }
    {
        self.bits == 0
    }
}
