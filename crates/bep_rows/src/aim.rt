//! What is asked of a cut.

/// What is asked of a cut.
#[derive(Clone, Copy, Debug, PartialEq, Eq)]
pub enum Aim {
    /// Whether it is settled.
    Settled,
    /// Whether it is firm.
    Firm,
}
