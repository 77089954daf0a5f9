//! What prevails comes to all, in so many steps at most. Each function does nothing; its contract is the law.
ghost use Rattle.bep_converge.specs.Arrival.{AllCome, AllStay, BehindIsListed, BringKeeps, ScansMakeReady};
ghost use Rattle.bep_converge.specs.Fewer.{FewerAreBehind};

use crate::after::{scan_makes_top, scans_make_tops};
use crate::bring::bring_brings;
use crate::laws::{end_is_firm, prevailing_is_unique};
use crate::steps::{prevailing_goes_on, steps_keep_hashes};
use bep_machine::{clusters_are_finite, steps_keep_sound};

/// After a run that brings a name to a device, the cluster is ready for the next one. What prevailed does still. Each other
/// name, and this one at each other device, has the very record and file that it had.
pub fn bring_keeps()
    ensures { BringKeeps }
{
    steps_keep_sound();
    steps_keep_hashes();
    prevailing_goes_on();
}

/// So of a list of all devices that aren't at the top of a name, one is off after such a run, and no other has come.
pub fn fewer_are_behind()
    ensures { FewerAreBehind }
{
    prevailing_is_unique();
    bring_keeps();
    steps_keep_sound();
}

/// In a cluster whose names all prevail, some list has each device that isn't at the top of a name, once for each name.
pub fn behind_is_listed()
    ensures { BehindIsListed }
{
    clusters_are_finite();
    prevailing_is_unique();
}

/// From a cluster that is ready, with room for as many runs as devices are behind on names, a quiet run without a reset leads to
/// one in which all are at the top. For each of these devices and names it has 9 steps, 2 for each batch of records and 3 for
/// each block of the file at most. No call of a store fails in it, and memory isn't wanting.
pub fn all_come()
    ensures { AllCome }
{
    prevailing_is_unique();
    bring_brings();
    bring_keeps();
    steps_keep_sound();
    prevailing_goes_on();
}

/// Where each device had a record of each name whose top is a deletion, the cut is firm once all are at the top: nothing changes
/// any more.
pub fn all_stay()
    ensures { AllStay }
{
    prevailing_is_unique();
    end_is_firm();
}

/// Where all names prevail but those that one device has to scan, the cluster is ready once it scanned them. So what it had
/// comes to all.
pub fn scans_make_ready()
    ensures { ScansMakeReady }
{
    steps_keep_sound();
    steps_keep_hashes();
    scan_makes_top();
    scans_make_tops();
}
