//! Version vectors, their order, merges and bumps.
ghost use Rattle.std.specs.Prelude.{◌≡◌, ℕ, ◌+◌, ◌<◌, ◌≤◌, ◌↔◌, ◌⊎◌, ◌==◌, if◌then◌else◌, List, [], length, IsTrue, SomeIff, OnOk, OnErr, IfErr, IsErrOf, nat_lt, count_by};
ghost use Rattle.arrayvec.specs.ArrayVec.{array_vec_len};
ghost use Rattle.bep_record.specs.Vector.{counter_of, greatest_counter, most_counters, IsVersion, IsAtMost, IsBelow, IsOrder, IsMerge, IsBump, ChangesOnly, ids_in_either};

use crate::{DeviceId, RecordError};
use arrayvec::ArrayVec;
use std::marker::Model;

/// How two version vectors stand to each other.
///
/// BEP v1, 'Vector'.
#[derive(Clone, Copy, Debug, PartialEq, Eq)]
pub enum Order {
    /// Every counter is the same.
    Equal,
    /// The first is strictly below the second.
    Below,
    /// The first is strictly above the second.
    Above,
    /// Each has a counter above the other's.
    Concurrent,
}

/// A version vector: a counter for each device that changed an item. A counter is a pair of the device's short id and a
/// value.
///
/// The ids rise and aren't 0, the values are 1 to 9223372036854775807, and there are at most 16 counters. A missing
/// counter counts as 0. A vector takes no memory from an allocator. BEP v1, 'Vector'; the limits are this project's
/// profile.
#[derive(Debug, Drop)]
pub struct Vector {
    counters: ArrayVec<(u64, u64), 16>,
}

impl Model for Vector {
    ghost use Rattle.std.specs.Prelude.{ℕ, List};
    ghost use Rattle.bep_record.specs.Vector.{IsVersion};

    ghost Value = { List (ℕ × ℕ) };

    ghost view = { λ vector. vector.counters.items };

    ghost invariant = { λ vector. IsVersion vector.counters.items };
}

const GREATEST_COUNTER: u64 = 9_223_372_036_854_775_807;

/// How many counters a vector may have.
pub(crate) const MOST_COUNTERS: usize = 16;

impl Vector {
    /// The vector with no counter.
    pub fn empty() -> Self
        ensures { result ≡ [] }
    {
        Vector {
            counters: ArrayVec::new(),
        }
    }

    /// The vector with these counters, `None` where they aren't well formed: where the ids don't rise or one is 0, a
    /// value is 0 or above 9223372036854775807, or there are more than 16.
    pub fn read(counters: &[(u64, u64)]) -> Option<Self>
        ensures { SomeIff result (IsVersion counters.now × (length counters.now ≤ most_counters)) counters.now }
    {
        if !is_version(counters) {
            return None;
        }
        let mut taken = ArrayVec::new();
        taken.try_extend_from_slice(counters).ok()?;
        Some(Vector { counters: taken })
    }

    /// The counters, ids rising.
    pub fn counters(&self) -> &[(u64, u64)]
        ensures value { result.now ≡ self.now }
        ensures well_formed { IsVersion self.now }
        ensures few { length self.now ≤ most_counters }
    {
        self.counters.as_slice()
    }

    /// The counter of a device, 0 where there is none.
    pub fn get(&self, id: DeviceId) -> u64
        ensures value { result ≡ counter_of self.now id }
        ensures bound { result ≤ greatest_counter }
    {
        counter_at(self.counters(), id.number())
    }

    /// How this vector stands to the other.
    pub fn order(&self, other: &Vector) -> Order
        ensures order { IsOrder self.now other.now result }
        ensures equal { (result ≡ Order.Equal) ↔ (self.now ≡ other.now) }
    {
        order_of(self.counters(), other.counters())
    }

    /// Raises the counter of a device by 1, as a change made there does.
    ///
    /// Refused with `CounterFull` where the counter is at its greatest value, and with `TooManyCounters` where the
    /// device has none yet and there are 16 others; the vector is then as before.
    pub fn bump(&mut self, id: DeviceId) -> Result<(), RecordError>
        ensures bumped { OnOk result (IsBump self.old id self.new) }
        ensures full { IsErrOf result RecordError.CounterFull ↔ (counter_of self.old id ≡ greatest_counter) }
        ensures many { IsErrOf result RecordError.TooManyCounters
            ↔ ((counter_of self.old id ≡ 0) × (length self.old ≡ most_counters)) }
        ensures no_other { IfErr result (λ e. (e ≡ RecordError.CounterFull) ⊎ (e ≡ RecordError.TooManyCounters)) }
        ensures unchanged { OnErr result (self.new ≡ self.old) }
    {
        let value = self.get(id);
        if value == GREATEST_COUNTER {
            return Err(RecordError::CounterFull);
        }
        if value == 0 && self.counters.is_full() {
            return Err(RecordError::TooManyCounters);
        }
        put(&mut self.counters, id.number(), value + 1);
        Ok(())
    }

    /// Raises each counter to the other vector's, if that one is greater.
    ///
    /// Refused with `TooManyCounters` where more than 16 devices have a counter in one of the two; the vector is then
    /// as before.
    pub fn merge(&mut self, other: &Vector) -> Result<(), RecordError>
        ensures merged { OnOk result (IsMerge self.old other.now self.new) }
        ensures counted { OnOk result (length self.new ≡ ids_in_either self.old other.now) }
        ensures many { IsErrOf result RecordError.TooManyCounters
            ↔ (most_counters < ids_in_either self.old other.now) }
        ensures no_other { IfErr result (λ e. e ≡ RecordError.TooManyCounters) }
        ensures unchanged { OnErr result (self.new ≡ self.old) }
    {
        if ids_in_either(self.counters(), other.counters()) > MOST_COUNTERS {
            return Err(RecordError::TooManyCounters);
        }
        put_greater(&mut self.counters, other.counters());
        Ok(())
    }
}

/// Laws of the order on version vectors, each stated by a function that does nothing.
impl Vector {
    /// Well-formed vectors that are at most each other are equal.
    pub fn equal_where_both_at_most()
        ensures { (u v : List (ℕ × ℕ)) → IsVersion u → IsVersion v → IsAtMost u v → IsAtMost v u → u ≡ v }
    {}

    /// *At most* is an order.
    pub fn at_most_is_an_order()
        ensures reflexive { (u : List (ℕ × ℕ)) → IsAtMost u u }
        ensures transitive { (u v w : List (ℕ × ℕ)) → IsAtMost u v → IsAtMost v w → IsAtMost u w }
    {}

    /// To be strictly below goes on along what is at most.
    pub fn below_goes_on()
        ensures from_below { (u v w : List (ℕ × ℕ)) → IsAtMost u v → IsBelow v w → IsBelow u w }
        ensures to_above { (u v w : List (ℕ × ℕ)) → IsBelow u v → IsAtMost v w → IsBelow u w }
    {}

    /// The merge is the least vector that both are at most.
    pub fn merge_is_least()
        ensures first { (u v w : List (ℕ × ℕ)) → IsMerge u v w → IsAtMost u w }
        ensures second { (u v w : List (ℕ × ℕ)) → IsMerge u v w → IsAtMost v w }
        ensures least { (u v w x : List (ℕ × ℕ)) → IsMerge u v w → IsAtMost u x → IsAtMost v x → IsAtMost w x }
    {}

    /// What is strictly below one of two vectors is strictly below each merge of them.
    pub fn merge_keeps_above()
        ensures first { (u v x w : List (ℕ × ℕ)) → IsBelow u v → IsMerge v x w → IsBelow u w }
        ensures second { (u v x w : List (ℕ × ℕ)) → IsBelow u x → IsMerge v x w → IsBelow u w }
    {}

    /// A bump leads strictly above.
    pub fn bump_is_above()
        ensures { (u w : List (ℕ × ℕ)) (id : ℕ) → IsBump u id w → IsBelow u w }
    {}
}

/// Whether the ids rise and aren't 0, and the values are in range.
pub(crate) fn is_version(counters: &[(u64, u64)]) -> bool
    ensures { IsTrue result ↔ IsVersion counters.now }
{
    let mut low = 0;
    for (id, value) in counters {
        if *id <= low || *value == 0 || *value > GREATEST_COUNTER {
            return false;
        }
        low = *id;
    }
    true
}

/// The counter at this id, 0 where there is none.
pub(crate) fn counter_at(counters: &[(u64, u64)], id: u64) -> u64
    ensures { result ≡ counter_of counters.now id }
{
    for counter in counters {
        if counter.0 == id {
            return counter.1;
        }
    }
    0
}

/// How the first version vector stands to the second.
pub(crate) fn order_of(first: &[(u64, u64)], second: &[(u64, u64)]) -> Order
    requires first_version { IsVersion first.now }
    requires second_version { IsVersion second.now }
    ensures order { IsOrder first.now second.now result }
    ensures equal { (result ≡ Order.Equal) ↔ (first.now ≡ second.now) }
{
    match (is_at_most(first, second), is_at_most(second, first)) {
        (true, true) => Order::Equal,
        (true, false) => Order::Below,
        (false, true) => Order::Above,
        (false, false) => Order::Concurrent,
    }
}

/// Whether each counter of the first is at most that of the second.
pub(crate) fn is_at_most(first: &[(u64, u64)], second: &[(u64, u64)]) -> bool
    requires { IsVersion first.now }
    ensures { IsTrue result ↔ IsAtMost first.now second.now }
{
    first
        .iter()
        .all(|counter| counter.1 <= counter_at(second, counter.0))
}

// How many ids have a counter in one of the two.
fn ids_in_either(first: &[(u64, u64)], second: &[(u64, u64)]) -> usize
    requires first_few { length first.now ≤ most_counters }
    requires second_few { length second.now ≤ most_counters }
    ensures { result ≡ ids_in_either first.now second.now }
{
    first.len()
        + second
            .iter()
            .filter(|counter| counter_at(first, counter.0) == 0)
            .count()
}

// How many ids are below this one.
fn place_of(counters: &[(u64, u64)], id: u64) -> usize
    ensures { result ≡ count_by (λ counter. nat_lt counter.0 id) counters.now }
{
    counters.iter().filter(|counter| counter.0 < id).count()
}

// Sets one counter. Where there was none, there must be room for it.
fn put(counters: &mut ArrayVec<(u64, u64), 16>, id: u64, value: u64)
    requires version { IsVersion counters.old.items }
    requires id { 1 ≤ id }
    requires value { (1 ≤ value) × (value ≤ greatest_counter) }
    requires room { counter_of counters.old.items id ≡ 0 → array_vec_len counters.old < most_counters }
    ensures version { IsVersion counters.new.items }
    ensures put { ChangesOnly counters.old.items counters.new.items id value }
    ensures len { array_vec_len counters.new
        ≡ array_vec_len counters.old + (if counter_of counters.old.items id == 0 then 1 else 0) }
{
    let place = place_of(counters.as_slice(), id);
    if counter_at(counters.as_slice(), id) == 0 {
        counters.insert(place, (id, value));
    } else {
        counters[place] = (id, value);
    }
}

// Raises each counter to that of `others`, for all of which there must be room.
fn put_greater(counters: &mut ArrayVec<(u64, u64), 16>, others: &[(u64, u64)])
    requires version { IsVersion counters.old.items }
    requires other_version { IsVersion others.now }
    requires room { ids_in_either counters.old.items others.now ≤ most_counters }
    ensures version { IsVersion counters.new.items }
    ensures merged { IsMerge counters.old.items others.now counters.new.items }
    ensures counted { array_vec_len counters.new ≡ ids_in_either counters.old.items others.now }
{
    for (id, value) in others {
        let own = counter_at(counters.as_slice(), *id);
        put(counters, *id, own.max(*value));
    }
}
