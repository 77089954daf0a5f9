//! What a step that isn't done leaves as before. The function does nothing; its contract is the law.
ghost use Rattle.bep_machine.specs.Undone.{UndoneStepsLeaveAll};

/// A step that is refused, or that wants memory, leaves all as before, save that the end of a pull may have kept a
/// conflict copy.
pub fn undone_steps_leave_all()
    ensures { UndoneStepsLeaveAll }
{}
