//! A step is what it does to each device and each link, and a run is what its events make of each. Each function does
//! nothing; its contract is the law.
ghost use Rattle.bep_machine.specs.HalfLaws.{HalvesMakeTheStep, StepHasHalves, EditIsTold, RemoveIsTold, ScanIsTold, OverrideIsTold, RevertIsTold, StartPullIsTold, FinishIsTold, BeginIsTold, DeliverIsTold, AnnounceIsTold, AskIsTold, TrafficIsOne, ConnectIsTold, LoseIsTold, RestartIsTold, ResetIsTold, DevicesReplayTheirOwn, LinksReplayTheirOwn, ReplaysKeepSharing, ReplaysKeepIds, RunReplays, ReplaysRun, ReplaysAreThere};

use crate::steps_keep_sound;

/// Where each device and each link that an event touches makes its half, and all others stay, the event's step was made.
pub fn halves_make_the_step()
    ensures { HalvesMakeTheStep }
{}

/// Either a step was refused or wanted memory, and changes nothing, or an event tells of it: each device and each link
/// that the event touches makes its half, and all others stay.
pub fn step_has_halves()
    ensures { StepHasHalves }
{}

/// What is logged of an action makes of the device, and of the link that it was lent, what the action did. This holds
/// of a step in a folder that is done, or that fails and yet changed something; of a step over a link that is done; of
/// a link that comes up or is lost; and of a restart or a reset, at the device and at each of its links. What was done to
/// a link tells its traffic: no other traffic would.
pub fn actions_are_told()
    ensures edit { EditIsTold }
    ensures remove { RemoveIsTold }
    ensures scan { ScanIsTold }
    ensures override_one { OverrideIsTold }
    ensures revert { RevertIsTold }
    ensures start_pull { StartPullIsTold }
    ensures finish { FinishIsTold }
    ensures begin { BeginIsTold }
    ensures deliver { DeliverIsTold }
    ensures announce { AnnounceIsTold }
    ensures ask { AskIsTold }
    ensures traffic { TrafficIsOne }
    ensures connect { ConnectIsTold }
    ensures lose { LoseIsTold }
    ensures restart { RestartIsTold }
    ensures reset { ResetIsTold }
{}

/// A device, or a link, replays a log exactly where it replays those events of it that touch it.
pub fn own_events_replay()
    ensures devices { DevicesReplayTheirOwn }
    ensures links { LinksReplayTheirOwn }
{}

/// A replay changes neither which folders a device has nor, of each, its kind and who shares it. Where no event resets the
/// device, it changes the id of no index either.
pub fn replays_keep_folders()
    ensures sharing { ReplaysKeepSharing }
    ensures ids { ReplaysKeepIds }
{}

/// Every run has a log of all its steps that were done. Each device and each link replays it.
pub fn run_replays()
    ensures { RunReplays }
{
    step_has_halves();
}

/// Where each device and each link replays one log, the log's steps are a run.
pub fn replays_run()
    ensures { ReplaysRun }
{
    halves_make_the_step();
}

/// The devices and links of a sound cluster replay a log. Its events touch only what is there, and its edits put nodes. Then
/// all that its steps name is there, and the cluster to which the log leads is sound.
pub fn replays_are_there()
    ensures { ReplaysAreThere }
{
    halves_make_the_step();
    steps_keep_sound();
}
