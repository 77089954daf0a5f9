//! That each step over a link does what it is for, where nothing stands in its way, and what loses the link. Each function
//! does nothing; its contract is the law.
ghost use Rattle.bep_machine.specs.LinkEffects.{ConnectOpens, LoseEmpties, RestartForgets, ResetStartsOver, BeginOpens, UnnamedLosesLink, SecondConfigLosesLink, UnsharedLosesLink, TwiceLosesLink, OldUpdateLosesLink, BreachAloneLosesLink, ConfigIsTaken, IndexBringsView, UpdateAddsToView, RequestIsAnswered, WholeIsAnnounced, FurtherIsAnnounced, AskSendsRequest, BlockIsReceived, UnaskedIsIgnored};

use bep_index::{batch_records_are_found, records_make_an_index};

/// A link comes up with the next epoch and nothing on its way. A lost link has nothing on its way, and a restarted device
/// neither sessions, pulls nor links; other devices and their links stay. A device that is reset has none of these either,
/// an empty index under the new id for each folder, and nothing of what others have.
pub fn links_come_and_go()
    ensures connect { ConnectOpens }
    ensures lose { LoseEmpties }
    ensures restart { RestartForgets }
    ensures reset { ResetStartsOver }
{}

/// A new session waits for the other device's ClusterConfig and has no cursor yet; its own tells of each folder that both
/// share, once.
pub fn begin_opens_session()
    ensures { BeginOpens }
{}

/// What breaks the protocol loses the link: a message about a folder that the session's ClusterConfig didn't name, a second
/// ClusterConfig or one that names a folder that isn't shared or a folder twice, and an IndexUpdate that doesn't begin above
/// what is known. A delivery answers that the link was lost exactly where the message that it takes is one of these, and
/// exactly there it loses the link.
pub fn breach_loses_link()
    ensures unnamed { UnnamedLosesLink }
    ensures second { SecondConfigLosesLink }
    ensures unshared { UnsharedLosesLink }
    ensures twice { TwiceLosesLink }
    ensures old { OldUpdateLosesLink }
    ensures alone { BreachAloneLosesLink }
{}

/// A ClusterConfig brings each named folder's view under the announced id, cleared if it was under another one, and sets
/// what is sent next: what is above the announced point, where that is one of the own index, else the whole index.
pub fn config_is_taken()
    ensures { ConfigIsTaken }
{}

/// An Index brings the view to its records and to no others; an IndexUpdate adds its records.
pub fn records_reach_view()
    ensures whole { IndexBringsView }
    ensures further { UpdateAddsToView }
{
    records_make_an_index();
    batch_records_are_found();
}

/// A request for a block of a file that holds what its record says is answered with the block's bytes.
pub fn request_is_answered()
    ensures { RequestIsAnswered }
{}

/// The first records above the cursor are announced, at most 1000 and none left out, and the cursor moves on.
pub fn records_are_announced()
    ensures whole { WholeIsAnnounced }
    ensures further { FurtherIsAnnounced }
{}

/// A block that is missing and that the other device has is asked for.
pub fn block_is_asked_for()
    ensures { AskSendsRequest }
{}

/// A right response to a request of the session brings the bytes to the block that was asked for, and leaves all others.
pub fn block_is_received()
    ensures { BlockIsReceived }
{}

/// A response to no request of the session is taken, and changes nothing else.
pub fn unasked_is_ignored()
    ensures { UnaskedIsIgnored }
{}
