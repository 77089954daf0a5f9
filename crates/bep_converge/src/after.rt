//! What one device alone has left to do, and that it prevails once it's done: a scan, an edit and a scan as `touch` is, an
//! override, a revert. Each function does nothing; its contract is the law.
ghost use Rattle.bep_converge.specs.AfterLaws.{EditMakesTop, OverrideMakesTop, RevertLetsIn, ScanCanBeMade, ScanMakesTop, ScansMakeTops, TouchIsSeen};

use bep_choice::laws::choice_is_unique;
use bep_machine::{
    revert_takes_back, scan_records, steps_are_determined, steps_keep_sound, users_change_files,
};

/// Where a name awaits a device's scan, the scan records what the device holds, and this record prevails. All else is as it
/// was. The scan can be made where versions and index have room.
pub fn scan_makes_top()
    ensures makes { ScanMakesTop }
    ensures can { ScanCanBeMade }
{
    scan_records();
    steps_are_determined();
}

/// Where one device alone has unclean names, and each of them awaits its scan, these scans lead to a cut that prevails.
pub fn scans_make_tops()
    ensures { ScansMakeTops }
{
    scan_makes_top();
    steps_keep_sound();
}

/// Where a device's own record is behind none that is known elsewhere, an edit and then a scan make a record that prevails.
/// A file that gets another time alone is seen by a scan, and has its content still. So `touch` is such an edit.
pub fn edit_makes_top()
    ensures makes { EditMakesTop }
    ensures touch { TouchIsSeen }
{
    scan_makes_top();
    steps_keep_sound();
    users_change_files();
}

/// Where a name awaits a device's override, the override puts the device's own content above all records, and it prevails.
pub fn override_makes_top()
    ensures { OverrideMakesTop }
{
    choice_is_unique();
}

/// Where a name awaits that a device takes its local change back, the top prevails once it did.
pub fn revert_lets_in()
    ensures { RevertLetsIn }
{
    revert_takes_back();
}
