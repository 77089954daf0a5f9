//! What holds of each scenario that is read, as a law.
ghost use Rattle.bep_scenario.specs.Faultless.{ScenariosAreFaultless, FaultlessMayStart};
ghost use Rattle.bep_scenario.specs.Scenario.{ScenariosBeginEmpty};

/// What is read has no fault. There are at most 16 folders and 16 devices, with names and index ids. Folders, the
/// devices of a folder and links stand once. Each link joins two of the devices, the smaller first. What an edit puts
/// is a node. A law, which does nothing when it runs.
pub fn scenarios_are_faultless()
    ensures { ScenariosAreFaultless }
{}

/// What has no fault may start: each of its folders, devices and links may be added to the configuration in its turn,
/// so `config_of` never refuses it. A law, which does nothing when it runs.
pub fn faultless_scenarios_start()
    ensures { FaultlessMayStart }
{}

/// Each store holds nothing at the beginning of what is read. A law, which does nothing when it runs.
pub fn scenarios_begin_empty()
    ensures { ScenariosBeginEmpty }
{}
