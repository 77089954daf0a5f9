//! What no step breaks, and what each message keeps by its type. The functions change nothing; their contracts are the
//! laws.
ghost use Rattle.bep_index.specs.Batch.{IsBatch};
ghost use Rattle.bep_index.specs.Good.{AllGood};
ghost use Rattle.bep_machine.specs.Laws.{StepsKeepSound};
ghost use Rattle.bep_machine.specs.Sound.{IsSoundMessage};

use crate::Message;
use bep_blocks::plain_blocks_match;
use bep_index::{Batch, batch_records_are_found, changes_keep_a_view, puts_keep_an_index};
use bep_record::{bump_exists, merge_exists};

/// No step breaks what holds of every cluster: its records, views, pulls and stores are well formed, its devices and
/// sessions fit the configuration, and what is on its way are batches of well-formed records.
pub fn steps_keep_sound()
    ensures { StepsKeepSound }
{
    merge_exists();
    bump_exists();
    plain_blocks_match();
    puts_keep_an_index();
    changes_keep_a_view();
    batch_records_are_found();
}

/// The records of each Index and IndexUpdate are a batch of well-formed ones.
pub fn message_is_sound(message: &Message)
    ensures { IsSoundMessage message.now }
{
    match message {
        Message::Index(_folder, batch) => batch_is_sound(batch),
        Message::IndexUpdate(_folder, batch) => batch_is_sound(batch),
        Message::ClusterConfig(_named) => (),
        Message::Request(_request) => (),
        Message::Response(_response) => (),
    }
}

fn batch_is_sound(batch: &Batch)
    ensures batch { IsBatch batch.now }
    ensures good { AllGood batch.now }
{
    batch.as_slice();
    batch.records_are_good();
}
