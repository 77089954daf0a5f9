//! Whole numbers in their ranges, flags, and what is told by a number.
ghost use Rattle.std.specs.Prelude.{◌≡◌, ◌≤◌, ℕ, refl};
ghost use Rattle.bep_tree.specs.View.{view};
ghost use Rattle.bep_json.specs.Reading.{Gives};
ghost use Rattle.bep_json.specs.Numbers.{is_whole, is_flag, read_number, read_unsigned, read_signed, read_flag, read_kind, greatest_id};

use crate::{DocVersion, Leaf, ReadError, Readable, Shaped};
use bep_record::{DeviceId, Kind};
use bep_tree::{Tree, as_bool, as_i64, as_u64};
use std::alloc::Global;
use std::marker::Model;

/// A whole number from `LOW` to `HIGH`.
#[derive(Clone, Copy, Debug)]
pub struct Whole<const LOW: u64, const HIGH: u64> {
    number: u64,
}

/// A record's number in its index, or the greatest of them: 0 to 9223372036854775807.
pub type Sequence = Whole<0, 9223372036854775807>;

/// The nanoseconds of a time, below 1000000000.
pub type Nanoseconds = Whole<0, 999999999>;

impl<const LOW: u64, const HIGH: u64> Model for Whole<LOW, HIGH> {
    ghost Value = { ℕ };

    ghost view = { λ whole. whole.number };

    ghost invariant = { λ whole. (LOW ≤ whole.number) × (whole.number ≤ HIGH) };

    ghost inverse = { λ number. record { number = number } };
}

impl<const LOW: u64, const HIGH: u64> Whole<LOW, HIGH> {
    /// This number.
    pub fn new(number: u64) -> Self
        requires low { LOW ≤ number }
        requires high { number ≤ HIGH }
        ensures { result ≡ number }
    {
        Whole { number }
    }

    /// The number.
    pub fn number(self) -> u64
        ensures value { result ≡ self.entry }
        ensures low { LOW ≤ self.entry }
        ensures high { self.entry ≤ HIGH }
    {
        self.number
    }
}

impl<const LOW: u64, const HIGH: u64> Shaped for Whole<LOW, HIGH> {
    ghost has_shape = { λ _. is_whole };

    ghost reads = { λ _. read_number LOW HIGH };
}

impl<const LOW: u64, const HIGH: u64> Readable for Whole<LOW, HIGH> {
    fn has_shape(_version: DocVersion, value: &Tree<'_>) -> bool {
        is_whole(value)
    }

    fn read(_alloc: Global, _version: DocVersion, value: &Tree<'_>) -> Result<Self, ReadError> {
        match as_u64(value) {
            Some(number) if LOW <= number && number <= HIGH => Ok(Whole { number }),
            _ => Err(ReadError::Range),
        }
    }
}

impl<const LOW: u64, const HIGH: u64> Leaf for Whole<LOW, HIGH> {
    ghost not_list = { λ _ _. refl };

    ghost not_object = { λ _ _. refl };
}

impl Shaped for u64 {
    ghost has_shape = { λ _. is_whole };

    ghost reads = { λ _. read_unsigned };
}

impl Readable for u64 {
    fn has_shape(_version: DocVersion, value: &Tree<'_>) -> bool {
        is_whole(value)
    }

    fn read(_alloc: Global, _version: DocVersion, value: &Tree<'_>) -> Result<Self, ReadError> {
        match as_u64(value) {
            Some(number) => Ok(number),
            None => Err(ReadError::Range),
        }
    }
}

impl Leaf for u64 {
    ghost not_list = { λ _ _. refl };

    ghost not_object = { λ _ _. refl };
}

impl Shaped for i64 {
    ghost has_shape = { λ _. is_whole };

    ghost reads = { λ _. read_signed };
}

impl Readable for i64 {
    fn has_shape(_version: DocVersion, value: &Tree<'_>) -> bool {
        is_whole(value)
    }

    fn read(_alloc: Global, _version: DocVersion, value: &Tree<'_>) -> Result<Self, ReadError> {
        match as_i64(value) {
            Some(number) => Ok(number),
            None => Err(ReadError::Range),
        }
    }
}

impl Leaf for i64 {
    ghost not_list = { λ _ _. refl };

    ghost not_object = { λ _ _. refl };
}

impl Shaped for bool {
    ghost has_shape = { λ _. is_flag };

    ghost reads = { λ _. read_flag };
}

impl Readable for bool {
    fn has_shape(_version: DocVersion, value: &Tree<'_>) -> bool {
        as_bool(value).is_some()
    }

    fn read(_alloc: Global, _version: DocVersion, value: &Tree<'_>) -> Result<Self, ReadError> {
        match as_bool(value) {
            Some(flag) => Ok(flag),
            None => Err(ReadError::Range),
        }
    }
}

impl Leaf for bool {
    ghost not_list = { λ _ _. refl };

    ghost not_object = { λ _ _. refl };
}

impl Shaped for DeviceId {
    ghost has_shape = { λ _. is_whole };

    ghost reads = { λ _. read_number 1 greatest_id };
}

impl Readable for DeviceId {
    fn has_shape(_version: DocVersion, value: &Tree<'_>) -> bool {
        is_whole(value)
    }

    fn read(_alloc: Global, _version: DocVersion, value: &Tree<'_>) -> Result<Self, ReadError> {
        match as_u64(value) {
            Some(number) => match DeviceId::read(number) {
                Some(device) => Ok(device),
                None => Err(ReadError::Range),
            },
            None => Err(ReadError::Range),
        }
    }
}

impl Leaf for DeviceId {
    ghost not_list = { λ _ _. refl };

    ghost not_object = { λ _ _. refl };
}

impl Shaped for Kind {
    ghost has_shape = { λ _. is_whole };

    ghost reads = { λ _. read_kind };
}

impl Readable for Kind {
    fn has_shape(_version: DocVersion, value: &Tree<'_>) -> bool {
        is_whole(value)
    }

    fn read(_alloc: Global, _version: DocVersion, value: &Tree<'_>) -> Result<Self, ReadError> {
        match kind_of(value) {
            Some(kind) => Ok(kind),
            None => Err(ReadError::Range),
        }
    }
}

impl Leaf for Kind {
    ghost not_list = { λ _ _. refl };

    ghost not_object = { λ _ _. refl };
}

// Whether the value is a whole number of 64 bits.
pub(crate) fn is_whole(value: &Tree<'_>) -> bool
    ensures { result ≡ is_whole (view value.now) }
{
    as_u64(value).is_some() || as_i64(value).is_some()
}

// The kind whose number the value is.
fn kind_of(value: &Tree<'_>) -> Option<Kind>
    ensures { result ≡ read_kind (view value.now) }
{
    match as_u64(value) {
        Some(0) => Some(Kind::File),
        Some(1) => Some(Kind::Directory),
        Some(4) => Some(Kind::Symlink),
        _ => None,
    }
}
