//! What prevails in a cut comes to all, whatever is on its way in it. Each function does nothing; its contract is the law.
ghost use Rattle.bep_converge.specs.CutDown.{AllComeFromCuts, CutsComeDown};

use crate::arrival::all_come;
use crate::laws::prevailing_is_unique;
use crate::steps::{cuts_have_hashes, prevailing_goes_on};
use bep_machine::steps_keep_sound;

/// From the cluster of a cut whose links may be up, with messages on their way, the links go down one after the other: then it is
/// ready for runs that bring names.
pub fn cuts_come_down()
    ensures { CutsComeDown }
{
    steps_keep_sound();
    cuts_have_hashes();
    prevailing_goes_on();
}

/// So what prevails in such a cut comes to all, in as many steps as from one whose links are down, and one for each link more.
pub fn all_come_from_cuts()
    ensures { AllComeFromCuts }
{
    cuts_come_down();
    all_come();
    cuts_have_hashes();
    prevailing_is_unique();
    prevailing_goes_on();
}
