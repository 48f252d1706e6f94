//! Sets of attributes.

ghost use Rattle.std.specs.Prelude.{⊤, ◌≡◌, ◌≢◌, ◌==◌, ◌||◌, ◌^◌, ◌<◌, ◌↔◌, IsTrue, true, false};
ghost use Rattle.std.specs.Int.RustNames.{bit_or};
ghost use Rattle.mad_term.specs.declared.attribute.Attribute.{Attribute};

use crate::attribute::Attribute;
use bitflags::{Flag, Flags};

// A word with one bit for each attribute, at its index. A word alone may have other bits too.
#[derive(Clone, Copy, Debug, PartialEq, Eq)]
struct AttributeBits(u32);

// An attribute's name, and the word with its bit alone.
macro_rules! flag {
    ($attribute:ident) => {
        Flag {
            name: stringify!($attribute),
            value: AttributeBits(1 << (Attribute::$attribute as u32)),
        }
    };
}

impl AttributeBits {
    const NAMES: &'static [Flag<AttributeBits>] = &[
        flag!(Reset),
        flag!(Bold),
        flag!(Dim),
        flag!(Italic),
        flag!(Underlined),
        flag!(SlowBlink),
        flag!(RapidBlink),
        flag!(Reverse),
        flag!(Hidden),
        flag!(CrossedOut),
        flag!(Fraktur),
        flag!(NoBold),
        flag!(NormalIntensity),
        flag!(NoItalic),
        flag!(NoUnderline),
        flag!(NoBlink),
        flag!(NoReverse),
        flag!(NoHidden),
        flag!(NotCrossedOut),
        flag!(Framed),
        flag!(Encircled),
        flag!(OverLined),
        flag!(NotFramedOrEncircled),
        flag!(NotOverLined),
    ];
}

impl Flags for AttributeBits {
    type Bits = u32;

    ghost use Rattle.mad_term.specs.AttributeNames.{attribute_names};

    ghost exact = { ⊤ };

    ghost table = { attribute_names };

    ghost set_of = { λ s. s.0 };

    fn flags<'a>() -> &'a [Flag<AttributeBits>] {
        AttributeBits::NAMES
    }

    fn bits(&self) -> u32 {
        self.0
    }

    fn from_bits_retain(bits: u32) -> AttributeBits {
        AttributeBits(bits)
    }
}

/// A set of attributes. It has no bits but theirs, so that two sets are equal where they have the
/// same attributes.
#[derive(Clone, Copy, Debug, PartialEq, Eq)]
pub struct Attributes {
    bits: AttributeBits,
    ghost within: { bits.0 < 2 ^ 24 },
}

impl From<Attribute> for Attributes {
    ghost use Rattle.mad_term.specs.AttributeSets.{only};

    ghost from_gives = { λ a s. s ≡ only a };

    #[tactic(auto, using(crate::proofs::SameAttributes::same_bits))]
    fn from(attribute: Attribute) -> Attributes {
        Attributes {
            bits: AttributeBits(1 << attribute.index()),
        }
    }
}

impl Default for Attributes {
    ghost use Rattle.mad_term.specs.AttributeSets.{no_attributes};

    ghost is_default = { λ s. s ≡ no_attributes };

    #[tactic(auto, using(crate::proofs::SameAttributes::same_bits))]
    fn default() -> Attributes {
        Attributes {
            bits: AttributeBits(0),
        }
    }
}

impl Attributes {
    ghost use Rattle.mad_term.specs.Attribute.{attribute_index};
    ghost use Rattle.mad_term.specs.Attributes.{attribute_bits, has_attribute};
    ghost use Rattle.mad_term.specs.AttributeSets.{only, united};

    /// Whether the set has the attribute.
    pub fn has(self, attribute: Attribute) -> bool
        ensures { result ≡ has_attribute self attribute }
    {
        (self.bits.0 >> attribute.index()) & 1 == 1
    }

    /// Puts an attribute into the set.
    pub fn set(&mut self, attribute: Attribute)
        ensures value { self.new ≡ united self.old (only attribute) }
        ensures has { has_attribute self.new attribute ≡ true }
        ensures others { (b : Attribute) → attribute_index b ≢ attribute_index attribute → has_attribute self.new b ≡ has_attribute self.old b }
    {
        self.bits.insert(Attributes::from(attribute).bits);
    }

    /// Takes an attribute out of the set.
    pub fn unset(&mut self, attribute: Attribute)
        ensures has { has_attribute self.new attribute ≡ false }
        ensures others { (b : Attribute) → attribute_index b ≢ attribute_index attribute → has_attribute self.new b ≡ has_attribute self.old b }
    {
        self.bits.remove(Attributes::from(attribute).bits);
    }

    /// Puts all attributes of another set into this one.
    pub fn extend(&mut self, other: Attributes)
        ensures value { self.new ≡ united self.old other }
        ensures has { (b : Attribute) → has_attribute self.new b ≡ (has_attribute self.old b || has_attribute other b) }
    {
        self.bits.insert(other.bits);
    }

    /// Whether the set has no attribute.
    #[tactic(auto, using(crate::proofs::SameAttributes::no_bits, crate::proofs::SameAttributes::no_attribute))]
    pub fn is_empty(self) -> bool
        ensures value { result ≡ (attribute_bits self == 0) }
        ensures none { IsTrue result ↔ ((a : Attribute) → has_attribute self a ≡ false) }
    {
        self.bits.is_empty()
    }
}
