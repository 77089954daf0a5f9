//! The search for the first part of a document that is at fault.
use crate::members::Holds::{List, Single};
use crate::members::{Holds, Member, members_of};
use crate::scenario::{places_of, sort_at};
use crate::wrong::{Wrong, count_of, wrong_in};
use bep_json::DocVersion;
use bep_tree::{Tree, at, get};
use std::alloc::{AllocError, Global};

/// What is looked for.
#[derive(Clone, Copy, PartialEq, Eq)]
pub(crate) enum Flaw {
    /// A member that is missing, isn't known or is of another kind.
    Shape,
    /// A value outside its range.
    Range,
}

/// A step from a value to one of its parts.
#[derive(Clone, Copy)]
pub(crate) enum Step<'a> {
    /// To the member of this name.
    Member(&'a str),
    /// To the item of this number, from 0.
    Item(usize),
}

/// The most levels of a document, lists counted.
pub(crate) const LEVELS: usize = 16;

/// What is wrong with the value or, else, with the first of its parts that is at fault, down to so many levels. Where
/// something is, the way leads to it.
pub(crate) fn look<'t, 'a>(
    alloc: Global,
    version: DocVersion,
    flaw: Flaw,
    way: &mut Vec<Step<'a>>,
    value: &'t Tree<'a>,
    holds: Holds,
    levels: usize,
) -> Result<Option<Wrong>, AllocError> {
    if levels == 0 {
        return Ok(None);
    }
    let wrong = wrong_in(alloc, version, flaw, way, value, holds)?;
    if wrong.is_some() {
        return Ok(wrong);
    }
    for place in 0..places_in(version, value, holds) {
        let Some((step, part, holds)) = part_at(version, value, holds, place) else {
            continue;
        };
        way.push(step)?;
        let wrong = look(alloc, version, flaw, way, part, holds, levels - 1)?;
        if wrong.is_some() {
            return Ok(wrong);
        }
        way.pop();
    }
    Ok(None)
}

// How many places for parts the value has.
fn places_in(version: DocVersion, value: &Tree<'_>, holds: Holds) -> usize {
    match holds {
        Single(sort) => {
            let sort = sort_at(version, sort, value);
            places_of(sort).len().max(members_of(sort).len())
        }
        List(..) => count_of(value),
    }
}

// The part at this place, if there is one: the step to it, the part, and what is to stand there.
fn part_at<'t, 'a>(
    version: DocVersion,
    value: &'t Tree<'a>,
    holds: Holds,
    place: usize,
) -> Option<(Step<'a>, &'t Tree<'a>, Holds)> {
    let sort = match holds {
        Single(sort) => sort_at(version, sort, value),
        List(sort, _) => return Some((Step::Item(place), at(value, place)?, Single(sort))),
    };
    if let Some(sort) = places_of(sort).get(place) {
        return Some((Step::Item(place), at(value, place)?, Single(*sort)));
    }
    let Member(name, _, holds) = *members_of(sort).get(place)?;
    Some((Step::Member(name), get(value, name)?, holds))
}
