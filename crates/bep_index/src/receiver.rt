//! What a receiver is sent, by the point that it announces.
ghost use Rattle.std.specs.Prelude.{◌≡◌, ◌↔◌};
ghost use Rattle.bep_index.specs.Index.{IsPoint};

use crate::{Index, Plan};

/// What is sent to a receiver that announces the index id and the greatest sequence of what it knows: only what is
/// above that sequence where the id is the index's own and the index has given that sequence; the whole index
/// otherwise, and to a receiver that knows nothing, which announces 0.
///
/// BEP v1, 'Fields (ClusterConfig)', fields 'index_id' and 'max_sequence'.
pub fn plan(index: &Index, id: u64, max: u64) -> Plan
    ensures above { (result ≡ Plan.Above max) ↔ IsPoint index.now id max }
    ensures full { (result ≡ Plan.Full) ↔ (¬ IsPoint index.now id max) }
{
    if id == index.id().number() && max >= 1 && max <= index.max_sequence() {
        Plan::Above(max)
    } else {
        Plan::Full
    }
}
