//! What a cluster was when it came behind its locks, as a name in clauses.
ghost use Rattle.std.specs.Prelude.{None, Option};
ghost use Rattle.bep_peer.specs.network.Network.{Network};

use bep_history::Tabled;
use std::marker::Brand;

/// What the devices and links of a cluster were when they came behind their locks, where that is known. It is said of a
/// type, so that each lock keeps it. No value of it is needed. Where the type also names a history's table, each lock keeps
/// what its log is in that history.
pub trait Origin: Tabled + Send + Sync {
    /// The devices and links; None where nothing is known of them.
    ghost start: { Option Network };
}

/// Nothing is known of what they were. So their logs may begin anew, and local steps and resets may be made.
#[derive(Clone, Copy, Debug)]
pub struct Anywhere;

impl Tabled for Anywhere {
    ghost table = { None };
}

impl Origin for Anywhere {
    ghost start = { None };
}

// A call with it picks what is known (`run_turns`).
impl Origin for Brand {
    ghost start = { None };
}
