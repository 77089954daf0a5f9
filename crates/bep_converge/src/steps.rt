//! This project's peers are orderly peers while none is reset, so what prevails goes on prevailing whatever they do. Each
//! function does nothing; its contract is the law.
ghost use Rattle.bep_converge.specs.Laws.{CutsHaveHashes, PrevailingGoesOn, RunsAreOrderly, StepsAreOrderly, StepsKeepHashes};

use crate::laws::runs_keep_prevailing;
use bep_machine::{steps_are_free, steps_keep_sound};
use bep_record::cut_is_of_one_length;

/// Each quiet step of a sound cluster is one of orderly peers, unless it resets a device, if the blocks that pulls received
/// have their hashes.
pub fn steps_are_orderly()
    ensures { StepsAreOrderly }
{
    steps_are_free();
    cut_is_of_one_length();
}

/// They have them after every step, since a device tests each block before it takes it.
pub fn steps_keep_hashes()
    ensures { StepsKeepHashes }
{}

/// So each quiet run of such a cluster in which no device is reset is a run of orderly peers.
pub fn runs_are_orderly()
    ensures { RunsAreOrderly }
{
    steps_are_orderly();
    steps_keep_hashes();
    steps_keep_sound();
}

/// After every such run from a cluster whose tables prevail, what prevailed does still: each device has of each name the very
/// record and file that it had, or those of a record that was known and is above its own one, and no name has come.
pub fn prevailing_goes_on()
    ensures { PrevailingGoesOn }
{
    runs_are_orderly();
    runs_keep_prevailing();
}

/// The sound cluster that a cut is of has received no block. So there is a cluster with the cut's tables of which the above
/// is said.
pub fn cuts_have_hashes()
    ensures { CutsHaveHashes }
{}
