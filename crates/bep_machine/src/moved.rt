//! What a step did that wasn't refused.

/// What a step did that wasn't refused.
#[derive(Clone, Copy, Debug, PartialEq, Eq)]
pub enum Moved {
    /// Something changed.
    Changed,
    /// Nothing had to change: the name was clean.
    Unchanged,
    /// The pull was given up, since its target isn't wanted any more.
    Dropped,
    /// The message broke the protocol, and the link was lost.
    LinkLost,
}
