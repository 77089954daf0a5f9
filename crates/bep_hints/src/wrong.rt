//! What is wrong with a value itself, whatever its parts hold.
use crate::leaves::{has_shape, is_in_range, words_of};
use crate::members::Holds::{List, Single};
use crate::members::{Holds, Member, Need, Sort, members_of};
use crate::scenario::{places_of, sort_at};
use crate::walk::{Flaw, Step};
use bep_json::DocVersion;
use bep_tree::{Tree, as_array, as_bool, as_u64, get};
use std::alloc::{AllocError, Global};

/// What is wrong with a value.
#[derive(Clone, Copy)]
pub(crate) enum Wrong {
    /// It should be this.
    Expected(&'static str),
    /// It should be a list of at most so many.
    TooLong(usize),
    /// It has no member of this name.
    Missing(&'static str),
    /// Nothing of this name may stand there.
    Unknown,
    /// Its bytes are written in two ways.
    TwoBodies,
}

type Found = Result<Option<Wrong>, AllocError>;

/// What is wrong with a value in which this is to stand, if anything is. The way is led on to a member that isn't known.
pub(crate) fn wrong_in<'a>(
    alloc: Global,
    version: DocVersion,
    flaw: Flaw,
    way: &mut Vec<Step<'a>>,
    value: &Tree<'a>,
    holds: Holds,
) -> Found {
    let sort = match holds {
        Single(sort) => sort_at(version, sort, value),
        List(_, most) => return Ok(wrong_list(flaw, value, most)),
    };
    let members = members_of(sort);
    if members.is_empty() {
        return Ok(wrong_piece(alloc, version, flaw, value, sort));
    }
    match flaw {
        Flaw::Shape => wrong_object(version, way, value, sort, members),
        Flaw::Range => Ok(None),
    }
}

fn wrong_list(flaw: Flaw, value: &Tree<'_>, most: usize) -> Option<Wrong> {
    if !as_array(value).is_some() {
        return Some(Wrong::Expected("a list"));
    }
    if flaw == Flaw::Range && count_of(value) > most {
        return Some(Wrong::TooLong(most));
    }
    None
}

// What is wrong with a value that is no object: of one piece, or with a sort for each of its places.
fn wrong_piece(
    alloc: Global,
    version: DocVersion,
    flaw: Flaw,
    value: &Tree<'_>,
    sort: Sort,
) -> Option<Wrong> {
    let places = places_of(sort);
    let fits = match flaw {
        _ if !places.is_empty() => count_of(value) == places.len(),
        Flaw::Shape => has_shape(version, sort, value),
        Flaw::Range => is_in_range(alloc, version, sort, value),
    };
    if fits {
        None
    } else {
        Some(Wrong::Expected(words_of(version, sort)))
    }
}

/// How many items a list has; none where there is no list.
pub(crate) fn count_of(value: &Tree<'_>) -> usize {
    match as_array(value) {
        Some(items) => items.len(),
        None => 0,
    }
}

// What is wrong with the members of an object, or where there is no object.
fn wrong_object<'a>(
    version: DocVersion,
    way: &mut Vec<Step<'a>>,
    value: &Tree<'a>,
    sort: Sort,
    members: &[Member],
) -> Found {
    let Tree::Object(object) = value else {
        return Ok(Some(Wrong::Expected("an object")));
    };
    for member in object {
        if !is_known(members, member.0) {
            way.push(Step::Member(member.0))?;
            return Ok(Some(Wrong::Unknown));
        }
    }
    for member in members {
        let Member(name, need, _) = *member;
        if need == Need::Due && get(value, name).is_none() {
            return Ok(Some(Wrong::Missing(name)));
        }
    }
    Ok(match sort {
        Sort::Node => wrong_node(value),
        Sort::Record => wrong_record(version, value),
        _ => None,
    })
}

fn is_known(members: &[Member], name: &str) -> bool {
    members.iter().any(|member| member.0 == name)
}

// What is wrong with a node as a whole.
fn wrong_node(value: &Tree<'_>) -> Option<Wrong> {
    if get(value, "text").is_some() && get(value, "hex").is_some() {
        return Some(Wrong::TwoBodies);
    }
    match get(value, "type") {
        Some(kind) if as_u64(kind) == Some(4) && get(value, "target").is_none() => {
            Some(Wrong::Missing("target"))
        }
        _ => None,
    }
}

// What is wrong with a record as a whole: in version 2 one of a file that isn't deleted says its block size.
fn wrong_record(version: DocVersion, value: &Tree<'_>) -> Option<Wrong> {
    let is_file = is_number(get(value, "type"), 0);
    let is_deleted = is_set(get(value, "deleted"));
    if version == DocVersion::One || !is_file || is_deleted || get(value, "block_size").is_some() {
        return None;
    }
    Some(Wrong::Missing("block_size"))
}

fn is_number(value: Option<&Tree<'_>>, number: u64) -> bool {
    match value {
        Some(value) => as_u64(value) == Some(number),
        None => false,
    }
}

fn is_set(value: Option<&Tree<'_>>) -> bool {
    match value {
        Some(value) => as_bool(value) == Some(true),
        None => false,
    }
}
