//! Which files a step leaves alone. Each function does nothing; its contract is the law.
ghost use Rattle.bep_machine.specs.Files.{FinishKeepsFiles, RevertKeepsFiles};

/// The end of a pull changes no file of another name, and none that wasn't scanned since it changed: a conflict copy is
/// written over nothing.
pub fn finish_keeps_files()
    ensures { FinishKeepsFiles }
{}

/// A revert changes no file of another name, and none that wasn't scanned since it changed.
pub fn revert_keeps_files()
    ensures { RevertKeepsFiles }
{}
