//! Version vectors in JSON trees.
use bep_json::{DocVersion, Readable};
use bep_record::Vector;
use bep_tree::{Tree, as_array, as_u64};
use std::alloc::{AllocError, Global};

/// Whether the value is a list of pairs of whole numbers.
pub(crate) fn is_list_of_pairs(version: DocVersion, value: &Tree<'_>) -> bool {
    match as_array(value) {
        Some(items) => items.iter().all(|item| is_pair(version, item)),
        None => false,
    }
}

fn is_pair(version: DocVersion, item: &Tree<'_>) -> bool {
    match as_array(item) {
        Some([first, second]) => i64::has_shape(version, first) && i64::has_shape(version, second),
        _ => false,
    }
}

/// Whether the value is a version vector, or can't be read as one for want of memory alone.
pub(crate) fn is_vector(alloc: Global, value: &Tree<'_>) -> bool {
    match counters_of(alloc, value) {
        Ok(Some(counters)) => Vector::read(counters.as_slice()).is_some(),
        Ok(None) => false,
        Err(_) => true,
    }
}

// The counters that a list of pairs says.
fn counters_of(alloc: Global, value: &Tree<'_>) -> Result<Option<Vec<(u64, u64)>>, AllocError> {
    let Some(items) = as_array(value) else {
        return Ok(None);
    };
    let mut counters = Vec::with_capacity(alloc, items.len())?;
    for item in items {
        let Some(counter) = counter_of(item) else {
            return Ok(None);
        };
        counters.push(counter)?;
    }
    Ok(Some(counters))
}

fn counter_of(item: &Tree<'_>) -> Option<(u64, u64)> {
    match as_array(item) {
        Some([first, second]) => Some((as_u64(first)?, as_u64(second)?)),
        _ => None,
    }
}
