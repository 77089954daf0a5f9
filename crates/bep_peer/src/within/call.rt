//! A call of one of a device's folders.
ghost use Rattle.std.specs.Prelude.{Result};
ghost use Rattle.bep_folder.specs.Held.{Held};
ghost use Rattle.bep_folder.specs.declared.error.FolderError.{FolderError as Error};
ghost use Rattle.bep_peer.specs.inner.Call.{AnswersAt, IsSteady};
ghost use Rattle.bep_peer.specs.Member.{Remains};
ghost use Rattle.bep_peer.specs.Within.{OnlyFolder, TellsFault};

use crate::error::answered;
use crate::{Peer, PeerError};
use bep_folder::{FolderError, Replica};
use bep_machine::Refusal;
use bep_record::FolderName;
use bep_store::Store;

// What a folder of a device can be called for, and then answers with a `T`.
pub(crate) trait Call<S: Store, T: Drop>: Drop {
    // What it makes of the folder, and what is answered.
    ghost does: { Self → Held → Held → Result T Error → Type 0 };

    // Calls the folder for it.
    fn make(self, replica: &mut Replica<S>) -> Result<T, FolderError>
        ensures does { does self replica.old replica.new result }
        ensures steady { IsSteady replica.old replica.new result };
}

impl<S: Store> Peer<S> {
    // Calls the folder, tells what it told of its store, and answers what it answered. Refuses `NotShared` where the device
    // doesn't share the folder.
    pub(crate) fn call<T: Drop, C: Call<S, T>>(
        &mut self,
        folder: &FolderName,
        call: C,
    ) -> Result<T, PeerError>
        ensures answers { AnswersAt (C.does call) folder.now self.old self.new result }
        ensures rest { Remains self.old self.new }
        ensures only { OnlyFolder folder.now self.old self.new }
        ensures fault { TellsFault self.new result }
    {
        self.tell_nothing();
        let Some(replica) = self.folders.get_mut(folder) else {
            return Err(PeerError::Refused(Refusal::NotShared));
        };
        let answer = call.make(replica);
        self.trace.tell_of(replica.trace());
        answered(answer)
    }
}
