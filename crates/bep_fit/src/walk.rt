//! How a verdict is found. The function does nothing; its contract is the law.
ghost use Rattle.bep_fit.specs.Walk.{WalkBegins, WalkEnds, WalkFails, WalkGoesOn};

/// Logs whose tickets rise have the verdict that a walk along them finds. It begins before all events. At each step it looks
/// at the least ticket that comes next: if that event agrees, the walk goes past it in each log. If it doesn't, the first
/// object that has the ticket next is the misfit. Where nothing is left, the logs fit.
pub fn walk_finds_verdict()
    ensures begins { WalkBegins }
    ensures goes_on { WalkGoesOn }
    ensures ends { WalkEnds }
    ensures fails { WalkFails }
{}
