//! The ids of indexes.
ghost use Rattle.std.specs.Prelude.{◌≡◌, ℕ, ◌≤◌, SomeIff};

use std::marker::Model;

/// The id of an index, a 64-bit number other than 0. An index that is made anew gets another id. So others notice that
/// what they know of the old one is of no use any more.
///
/// BEP v1, 'Fields (ClusterConfig)', field 'index_id'.
#[derive(Clone, Copy, Debug, PartialEq, Eq, PartialOrd, Ord, Hash)]
pub struct IndexId {
    number: u64,
}

impl Model for IndexId {
    ghost Value = { ℕ };

    ghost view = { λ id. id.number };

    ghost invariant = { λ id. 1 ≤ id.number };

    ghost inverse = { λ number. record { number = number } };
}

impl IndexId {
    /// The id of this number, `None` for 0.
    pub fn read(number: u64) -> Option<Self>
        ensures { SomeIff result (1 ≤ number) number }
    {
        if number == 0 {
            return None;
        }
        Some(IndexId { number })
    }

    /// The id's number, 1 or more.
    pub fn number(self) -> u64
        ensures value { result ≡ self }
        ensures positive { 1 ≤ self }
    {
        self.number
    }
}
