//! The records of a batch together, in a map.
ghost use Rattle.std.specs.Prelude.{◌≡◌, ◌≤◌, [], IfOk, IsOk, IsSome, OnErr, OnOk, length};
ghost use Rattle.std.specs.FinMap as finite;
ghost use Rattle.bep_index.specs.Batch.{IsBatch, last_sequence, with_all};
ghost use Rattle.bep_index.specs.Change.{given_back};
ghost use Rattle.bep_index.specs.inner.Count.{new_names};
ghost use Rattle.bep_index.specs.Good.{AllGood};

use crate::Batch;
use bep_map::NameMap;
use bep_record::{Name, Record};
use std::alloc::{AllocError, Global};

// The sequence of the last record, `low` where there is none.
pub(crate) fn last_sequence_of(low: u64, records: &[Record]) -> u64
    ensures { result ≡ last_sequence low records.now }
{
    let mut last = low;
    for entry in records {
        last = entry.entry().sequence;
    }
    last
}

// How many of the records have a name that is not in the map.
pub(crate) fn count_new(map: &NameMap<Record>, records: &[Record]) -> usize
    ensures value { result ≡ new_names map.now records.now }
    ensures bound { result ≤ length records.now }
{
    let mut count = 0;
    for entry in records {
        if !map.contains(&entry.entry().name) {
            count += 1;
        }
    }
    count
}

// Puts each of the batch's records at its name. Without memory the map is as before.
pub(crate) fn put_batch(
    map: &mut NameMap<Record>,
    alloc: Global,
    batch: Batch,
) -> Result<(), AllocError>
    ensures ok { OnOk result (map.new ≡ with_all map.old batch) }
    ensures err { OnErr result (map.new ≡ map.old) }
    ensures empty { batch ≡ [] → IsOk result }
    ensures a_batch { IsBatch batch }
    ensures good { AllGood batch }
{
    batch.records_are_good();
    put_all(map, alloc, batch.as_slice())
}

// Puts a copy of each of the records at its name: other batches may share them. Without memory the map is as before: each
// call takes its own record out again, so that no copy of the map is made. It calls itself once for each record, at most
// 1000 deep.
fn put_all(map: &mut NameMap<Record>, alloc: Global, records: &[Record]) -> Result<(), AllocError>
    ensures ok { OnOk result (map.new ≡ with_all map.old records.now) }
    ensures err { OnErr result (map.new ≡ map.old) }
    ensures none { records.now ≡ [] → IsOk result }
{
    let [entry, more @ ..] = records else {
        return Ok(());
    };
    let put = put_one(map, alloc, entry.copy(alloc)?)?;
    let rest = put_all(map, alloc, more);
    keep_if_ok(map, put, rest)
}

// A name that was put, with what it had before.
#[derive(Drop)]
struct Put {
    name: Name,
    before: Option<Record>,
}

// Puts the record at its name. Without memory the map is as before.
fn put_one(map: &mut NameMap<Record>, alloc: Global, entry: Record) -> Result<Put, AllocError>
    ensures ok { OnOk result (map.new ≡ finite.insert map.old entry.name entry) }
    ensures name { IfOk result (λ put. put.name ≡ entry.name) }
    ensures before { IfOk result (λ put. put.before ≡ finite.get map.old entry.name) }
    ensures err { OnErr result (map.new ≡ map.old) }
{
    let (name, key) = copied_twice(alloc, &entry.entry().name)?;
    let before = map.insert(key, entry)?;
    Ok(Put { name, before })
}

// Two copies of the name.
fn copied_twice(alloc: Global, name: &Name) -> Result<(Name, Name), AllocError>
    ensures first { IfOk result (λ copies. copies.0 ≡ name.now) }
    ensures second { IfOk result (λ copies. copies.1 ≡ name.now) }
{
    let first = name.copy(alloc)?;
    let second = name.copy(alloc)?;
    Ok((first, second))
}

// Answers whether the rest was put; where it wasn't, the name, which has a value then, gets back what it had before.
fn keep_if_ok(
    map: &mut NameMap<Record>,
    put: Put,
    rest: Result<(), AllocError>,
) -> Result<(), AllocError>
    requires { OnErr rest (IsSome (finite.get map.old put.name)) }
    ensures same { result ≡ rest }
    ensures ok { OnOk rest (map.new ≡ map.old) }
    ensures err { OnErr rest (map.new ≡ given_back map.old put.name put.before) }
{
    match rest {
        Ok(()) => drop(put),
        Err(_) => give_back(map, put),
    }
    rest
}

// Gives the name, which has a value, what it had before. Takes no memory.
fn give_back(map: &mut NameMap<Record>, put: Put)
    requires { IsSome (finite.get map.old put.name) }
    ensures { map.new ≡ given_back map.old put.name put.before }
{
    let Put { name, before } = put;
    match before {
        Some(entry) => drop(map.replace(&name, entry)),
        None => drop(map.remove(&name)),
    }
}
