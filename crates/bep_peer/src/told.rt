//! What a device tells of its last action.
ghost use Rattle.std.specs.Prelude.{◌≡◌, None, Some};
ghost use Rattle.bep_store.specs.Sure.{NeverFails};
ghost use Rattle.bep_peer.specs.Member.{nothing_told};
ghost use Rattle.bep_peer.specs.Within.{told_of};

use crate::Trace;
use bep_machine::Message;
use bep_store::Store;
use std::marker::{Model, PhantomData};
use std::mem;

// The trace of the last action. No call of a store failed in it where no store of the kind ever fails.
#[derive(Drop)]
pub(crate) struct Told<S: Store> {
    trace: Trace,
    of: PhantomData<S>,
}

impl<S: Store> Model for Told<S> {
    ghost use Rattle.std.specs.Prelude.{◌≡◌, None};
    ghost use Rattle.bep_store.specs.Sure.{NeverFails};
    ghost use Rattle.bep_peer.specs.contracts.trace.Trace as trace_row;
    ghost use Rattle.bep_peer.specs.declared.trace.Trace.{Trace};

    ghost Value = { Trace };

    ghost coded = { trace_row.the_row.coded };

    ghost view = { λ told. told.trace };

    ghost invariant = { λ told. NeverFails S.faults → told.trace.failed ≡ None };
}

impl<S: Store> Told<S> {
    // Nothing failed, nothing was copied, and nothing was sent.
    pub(crate) fn nothing() -> Self
        ensures { result ≡ nothing_told }
    {
        Told {
            trace: Trace::nothing(),
            of: PhantomData,
        }
    }

    // Gives the trace away; nothing is told then.
    pub(crate) fn take(&mut self) -> Trace
        ensures value { result ≡ self.old }
        ensures taken { self.new ≡ nothing_told }
    {
        mem::replace(&mut self.trace, Trace::nothing())
    }

    // Which call of the store failed, counted from 1.
    pub(crate) fn failed(&self) -> Option<u32>
        ensures value { result ≡ self.now.failed }
        ensures sure { NeverFails S.faults → result ≡ None }
    {
        self.trace.failed
    }

    // A folder told so much of its store.
    pub(crate) fn tell_of(&mut self, told: (Option<u32>, bool))
        requires sure { NeverFails S.faults → told.0 ≡ None }
        ensures { self.new ≡ told_of (record { failed = told.0; copied = told.1 }) }
    {
        self.trace.tell_of(told);
    }

    // This call of the store failed, or none did.
    pub(crate) fn tell_failed(&mut self, failed: Option<u32>)
        requires sure { NeverFails S.faults → failed ≡ None }
        ensures { self.new ≡ record self.old { failed = failed } }
    {
        self.trace.failed = failed;
    }

    // This message was sent, of which these are two copies, or none was.
    pub(crate) fn tell_sent(&mut self, put: Option<(Message, Message)>)
        ensures { self.new ≡ record self.old { put = put } }
    {
        self.trace.tell_sent(put);
    }
}
