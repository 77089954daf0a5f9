//! Pairs of numbers, which are read as a walk along a document's text comes to them.
ghost use Rattle.std.specs.Prelude.{◌≡◌};
ghost use Rattle.bep_json.specs.Lists.{is_pair, read_pair};
ghost use Rattle.bep_json.specs.Taking.{told_as};

use crate::{DocVersion, Misread, Shaped, Taken, Told, Tuple, enter_list};
use bep_tree::{Reader, WalkError};
use std::alloc::Global;

// A pair of unsigned numbers, written as a list.
impl Shaped for (u64, u64) {
    ghost has_shape = { λ _. is_pair };

    ghost reads = { λ _. read_pair };
}

impl Taken for (u64, u64) {
    fn take(
        alloc: Global,
        version: DocVersion,
        reader: &mut Reader<'_>,
        depth: usize,
    ) -> Result<Told<Self>, WalkError> {
        let Some(inside) = enter_list(reader, depth)? else {
            return Ok(Err(Misread::Shape));
        };
        let numbers = <(u64, (u64, ()))>::take_items(alloc, version, reader, inside)?;
        Ok(pair_of(numbers))
    }
}

// The pair of the two numbers that are told.
fn pair_of(told: Told<(u64, (u64, ()))>) -> Told<(u64, u64)>
    ensures { result ≡ told_as (λ numbers. (numbers.0, numbers.1.0)) told }
{
    let (first, (second, ())) = told?;
    Ok((first, second))
}
