//! The turn of a session.
ghost use Rattle.std.specs.Prelude.{IfErr};
ghost use Rattle.bep_run.specs.Why.{IsOfTurns};

use crate::tally::tally;
use crate::{Locked, Origin};
use bep_blocks::{Gate, Place};
use bep_log::LogError;
use bep_machine::Moved;
use bep_record::DeviceId;
use bep_store::Store;
use std::sync::Wait;

impl<S: Store, O: Origin> Locked<S, O> {
    /// What the device does over its link with the other one: it begins a session if it can, takes one message, announces
    /// each of its folders once, and answers how many of these answered Ok. Where the message was taken, the gate is passed at
    /// `Delivered` with no guard held. What is refused is passed over. Refuses `NotShared` where the device or the link isn't
    /// there; else only for want of memory, which ends the turn. May wait.
    pub fn session_turn<R: Wait, G: Gate>(
        &self,
        rt: &R,
        device: DeviceId,
        other: DeviceId,
        gate: &G,
    ) -> Result<u64, LogError>
        ensures only { IfErr result (IsOfTurns O.table) }
    {
        let held = self.device(device)?;
        let joint = self.link_of(device, other)?;
        let mut done = tally::<O, Moved>(0, self.begin(rt, held, joint))?;
        let delivered = self.deliver(rt, held, joint);
        if delivered.is_ok() {
            gate.pass(Place::Delivered(device));
        }
        done = tally::<O, Moved>(done, delivered)?;
        for folder in held.folders.as_slice() {
            done = tally::<O, Moved>(done, self.announce(rt, held, joint, folder))?;
        }
        Ok(done)
    }
}
