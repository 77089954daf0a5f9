//! The log of a device or a link, with the object that it is of.
ghost use Rattle.std.specs.Prelude.{◌≡◌};
ghost use Rattle.std.specs.List.{AllByRecursion};
ghost use Rattle.bep_machine.specs.Laws.{IsSoundStep};
ghost use Rattle.bep_run_check.specs.Log.{AreTicketed, IsLog, IsLogged, PutsNode};

use bep_fit::{Object, Stamped};
use bep_machine::Step;
use std::marker::Model;

/// The log of a device or a link: its events since its base, each under a ticket, and the round of that base.
///
/// The tickets rise, from 1 or more.
pub struct ObjectLog {
    object: Object,
    round: u64,
    events: Vec<Stamped>,
}

// By hand: a caller's proof then sees one call where it lets go of one, and not each field (docs/developing.md).
impl Drop for ObjectLog {
    fn drop(self) {
        let ObjectLog {
            object: _,
            round: _,
            events: _,
        } = self;
    }
}

impl Model for ObjectLog {
    ghost use Rattle.bep_fit.specs.Logs.{ObjectLog};
    ghost use Rattle.bep_run_check.specs.Log.{IsLog};

    ghost Value = { ObjectLog };

    ghost view = { λ log. record { object = log.object; round = log.round; events = log.events.items } };

    ghost invariant = { λ log. IsLog log.events.items };
}

impl ObjectLog {
    /// The log of the object, with these events since its base, which is of this round. The caller sees to it that the
    /// tickets rise.
    pub fn new(object: Object, round: u64, events: Vec<Stamped>) -> Self
        requires { AreTicketed events.items }
        ensures { result ≡ record { object = object; round = round; events = events.items } }
    {
        edits_put_nodes(events.as_slice());
        ObjectLog {
            object,
            round,
            events,
        }
    }

    /// The device or the link.
    pub fn object(&self) -> Object
        ensures { result ≡ self.now.object }
    {
        self.object
    }

    /// The round of its base.
    pub fn round(&self) -> u64
        ensures { result ≡ self.now.round }
    {
        self.round
    }

    /// Its events since, by rising ticket. What its edits put are nodes.
    pub fn events(&self) -> &[Stamped]
        ensures value { result.now ≡ self.now.events }
        ensures a_log { IsLog self.now.events }
    {
        self.events.as_slice()
    }
}

/// Each log is what its type says: its tickets rise, from 1 or more, and what its edits put are nodes.
///
/// It does nothing: it is called for what it ensures.
pub fn all_are_logged(logs: &[ObjectLog])
    ensures { AllByRecursion IsLogged logs.now }
{
    for log in logs {
        log.events();
    }
}

// What each edit puts is a node.
fn edits_put_nodes(events: &[Stamped])
    ensures { AllByRecursion PutsNode events.now }
{
    for one in events {
        puts_node(&one.event.step);
    }
}

fn puts_node(step: &Step)
    ensures { IsSoundStep step.now }
{
    if let Step::Edit(_, _, _, node) = step {
        // `parts` is called for its clause `is_node`
        let _parts = node.parts();
    }
}
