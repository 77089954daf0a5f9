//! What comes of a document of which it is asked whether it converges.

/// What comes of a document of which it is asked whether it converges.
#[derive(Clone, Copy, Debug, PartialEq, Eq)]
pub enum Convergence {
    /// Its cut converges.
    Converging,
    /// It doesn't.
    NotConverging,
    /// The document is refused.
    Refused,
}
