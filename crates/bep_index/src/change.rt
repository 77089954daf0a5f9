//! A change of an index, and the way back from it.
use crate::IndexId;
use bep_record::{Name, Record};
use std::marker::Model;

/// How the last change of an index is taken back. It is valid until the index gives another number.
///
/// It knows the index by its id, the number that was given and the name that got it. It can't tell apart a copy of the
/// index that gave this name the same number by another change: it may be valid there too. This project's profile.
#[derive(Debug, Drop)]
pub struct Undo {
    pub(crate) id: IndexId,
    pub(crate) given: u64,
    pub(crate) name: Name,
    pub(crate) old: Option<Record>,
}

impl Model for Undo {
    ghost use Rattle.bep_index.specs.Change.{Change};

    ghost Value = { Change };

    ghost view = { λ undo. record { id = undo.id; sequence = undo.given; name = undo.name; before = undo.old } };
}
