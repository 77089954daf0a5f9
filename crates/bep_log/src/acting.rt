//! What a device does in one of its folders, under a ticket.
ghost use Rattle.bep_log.specs.Acts.{LogsIn};
ghost use Rattle.bep_log.specs.inner.Local.{copies, does_of, step_of};

use crate::error::answered;
use crate::event::event_told;
use crate::local::Local;
use crate::{LogError, LoggedPeer};
use bep_machine::{Moved, actions_are_told};
use bep_record::FolderName;
use bep_store::Store;

impl<S: Store> LoggedPeer<S> {
    // Makes the action, and logs its event.
    pub(crate) fn act(
        &mut self,
        ticket: u64,
        folder: &FolderName,
        action: Local<'_>,
    ) -> Result<Moved, LogError>
        ensures { LogsIn (copies action.entry) folder.now (does_of action.entry self.old.now.number folder.now) (step_of action.entry self.old.now.number folder.now) ticket self.old self.new result }
    {
        // each event that is logged makes the step that was made
        actions_are_told();
        self.history.open(ticket)?;
        let step = action.step(self.alloc, self.peer.number(), folder)?;
        let answer = action.make(&mut self.peer, folder);
        let told = self.peer.take_trace();
        let event = event_told(step, &answer, &told);
        self.history.tell_of(ticket, event);
        answered(answer)
    }
}
