//! The rule of the history, and what each step on its counter tells.
ghost use Rattle.std.specs.Prelude.{List, []};
ghost use Rattle.bep_fit.specs.declared.object.Object.{Object as Thing};
ghost use Rattle.bep_history.specs.inner.Rule.{Adds, Draws, Enters, GivesUp, IsKept, Learns};
ghost use Rattle.bep_history.specs.View.{beginning, claims_of, first_row, joined, nothing, other_rows};

use crate::View;
use atomic_table::{Join, Play, Split, TableRule};
use bep_fit::{Object, Stamped};
use std::marker::{Brand, PhantomData};

/// Each seat knows its part of one history.
pub struct Law;

impl TableRule<Stamped, View, Vec<Object>> for Law {
    ghost holds = { λ key. IsKept key.items };

    ghost first = { λ key. beginning key.items };
}

/// The objects of a history, as a name in clauses. No value of it is needed.
pub trait Named {
    ghost objects: { List Thing };
}

impl Named for Brand {
    ghost objects = { [] };
}

pub(crate) struct Draw;

impl Play<Stamped, View> for Draw {
    ghost then = { Draws };
}

pub(crate) struct Add;

impl Play<Stamped, View> for Add {
    ghost then = { Adds };
}

pub(crate) struct GiveUp;

impl Play<Stamped, View> for GiveUp {
    ghost then = { GivesUp };
}

pub(crate) struct Learn<O> {
    objects: PhantomData<O>,
}

impl<O: Named> Play<Stamped, View> for Learn<O> {
    ghost then = { Learns O.objects };
}

pub(crate) struct Enter;

impl Play<Stamped, View> for Enter {
    ghost then = { Enters };
}

pub(crate) struct First;

impl Split<View> for First {
    ghost left = { other_rows };

    ghost right = { first_row };
}

pub(crate) struct Claim;

impl Split<View> for Claim {
    ghost left = { λ old. old };

    ghost right = { claims_of };
}

pub(crate) struct Both;

impl Join<View> for Both {
    ghost both = { joined };

    ghost spent = { nothing };
}
