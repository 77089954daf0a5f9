//! Version vectors as records hold them.
ghost use Rattle.std.specs.Prelude.{◌≡◌, ◌↔◌, ◌≤◌, IsTrue, IfOk, IsOk, SomeIff, length};
ghost use Rattle.bep_record.specs.Vector.{counter_of, most_counters, IsVersion, IsAtMost, IsBelow, IsOrder};

use crate::vector::{MOST_COUNTERS, counter_at, is_at_most, is_version, order_of};
use crate::{DeviceId, Items, Order, Vector};
use std::alloc::{AllocError, Global};
use std::marker::Model;

/// The version vector of a record. It takes as much memory as it has counters, and isn't changed.
///
/// `Vector` has room for all 16 counters that a vector may have, so it takes 264 bytes. Nearly all records have one to three.
#[derive(Debug)]
pub struct Version {
    counters: Items<(u64, u64)>,
}

// By hand: a caller's proof then sees one call where it lets go of one, and not each field (docs/developing.md).
impl Drop for Version {
    fn drop(self) {
        let Version { counters: _ } = self;
    }
}

impl Model for Version {
    ghost use Rattle.std.specs.Prelude.{ℕ, ◌≤◌, List, length};
    ghost use Rattle.bep_record.specs.Vector.{IsVersion, most_counters};

    ghost Value = { List (ℕ × ℕ) };

    ghost view = { λ version. version.counters };

    ghost invariant = { λ version. IsVersion version.counters × (length version.counters ≤ most_counters) };
}

impl Version {
    /// The version of these counters, `None` where they aren't well formed: where the ids don't rise or one is 0, a value
    /// is 0 or above 9223372036854775807, or there are more than 16. Where they are it may be want of memory.
    pub fn read(alloc: Global, counters: &[(u64, u64)]) -> Result<Option<Self>, AllocError>
        ensures read { IfOk result (λ made. SomeIff made (IsVersion counters.now × (length counters.now ≤ most_counters)) counters.now) }
        ensures unfit { ¬ (IsVersion counters.now × (length counters.now ≤ most_counters)) → IsOk result }
    {
        if counters.len() > MOST_COUNTERS || !is_version(counters) {
            return Ok(None);
        }
        Ok(Some(Version {
            counters: Items::new(Vec::from_slice(alloc, counters)?),
        }))
    }

    /// The version with the vector's counters, or want of memory.
    pub fn of(alloc: Global, vector: &Vector) -> Result<Self, AllocError>
        ensures { IfOk result (λ made. made ≡ vector.now) }
    {
        Ok(Version {
            counters: Items::new(Vec::from_slice(alloc, vector.counters())?),
        })
    }

    /// The counters, ids rising.
    pub fn counters(&self) -> &[(u64, u64)]
        ensures value { result.now ≡ self.now }
        ensures well_formed { IsVersion self.now }
        ensures few { length self.now ≤ most_counters }
    {
        self.counters.as_slice()
    }

    /// The vector with these counters, which can be changed.
    pub fn vector(&self) -> Vector
        ensures { result ≡ self.now }
    {
        Vector::read(self.counters()).unwrap()
    }

    /// The counter of a device, 0 where there is none.
    pub fn get(&self, id: DeviceId) -> u64
        ensures { result ≡ counter_of self.now id }
    {
        counter_at(self.counters(), id.number())
    }

    /// Whether each counter is at most the other version's.
    pub fn is_at_most(&self, other: &Version) -> bool
        ensures { IsTrue result ↔ IsAtMost self.now other.now }
    {
        is_at_most(self.counters(), other.counters())
    }

    /// Whether this version is strictly below the other.
    pub fn is_below(&self, other: &Version) -> bool
        ensures { IsTrue result ↔ IsBelow self.now other.now }
    {
        self.order(other) == Order::Below
    }

    /// How this version stands to the other.
    pub fn order(&self, other: &Version) -> Order
        ensures order { IsOrder self.now other.now result }
        ensures equal { (result ≡ Order.Equal) ↔ (self.now ≡ other.now) }
    {
        order_of(self.counters(), other.counters())
    }

    /// An equal version of its own, or want of memory.
    pub fn copy(&self, alloc: Global) -> Result<Self, AllocError>
        ensures { IfOk result (λ made. made ≡ self.now) }
    {
        Ok(Version {
            counters: self.counters.copy(alloc)?,
        })
    }
}
