//! What a device does over a link: under the guards of both, the device's first, and under a ticket of its own.
ghost use Rattle.std.specs.Prelude.{IfErr};
ghost use Rattle.bep_run.specs.inner.Tickets.{IsNotOld};

use crate::shared::{Held, Joint};
use crate::{Locked, Origin};
use bep_log::LogError;
use bep_machine::Moved;
use bep_record::{FolderName, Name};
use bep_store::Store;
use std::sync::Wait;

impl<S: Store, O: Origin> Locked<S, O> {
    pub(crate) fn begin<R: Wait>(
        &self,
        rt: &R,
        held: &Held<S, O>,
        joint: &Joint<O>,
    ) -> Result<Moved, LogError>
        ensures { IfErr result (IsNotOld O.table) }
    {
        let mut peer = held.peer.lock(rt);
        let mut link = joint.link.lock(rt);
        peer.begin(rt, &self.history, &mut *link)
    }

    pub(crate) fn deliver<R: Wait>(
        &self,
        rt: &R,
        held: &Held<S, O>,
        joint: &Joint<O>,
    ) -> Result<Moved, LogError>
        ensures { IfErr result (IsNotOld O.table) }
    {
        let mut peer = held.peer.lock(rt);
        let mut link = joint.link.lock(rt);
        peer.deliver(rt, &self.history, &mut *link)
    }

    pub(crate) fn announce<R: Wait>(
        &self,
        rt: &R,
        held: &Held<S, O>,
        joint: &Joint<O>,
        folder: &FolderName,
    ) -> Result<Moved, LogError>
        ensures { IfErr result (IsNotOld O.table) }
    {
        let mut peer = held.peer.lock(rt);
        let mut link = joint.link.lock(rt);
        peer.announce(rt, &self.history, &mut *link, folder)
    }

    pub(crate) fn ask<R: Wait>(
        &self,
        rt: &R,
        held: &Held<S, O>,
        joint: &Joint<O>,
        folder: &FolderName,
        name: &Name,
    ) -> Result<Moved, LogError>
        ensures { IfErr result (IsNotOld O.table) }
    {
        let mut peer = held.peer.lock(rt);
        let mut link = joint.link.lock(rt);
        peer.ask(rt, &self.history, &mut *link, folder, name)
    }
}
