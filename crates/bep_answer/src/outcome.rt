//! What is answered of a document.

/// What is answered of a document.
#[derive(Clone, Copy, Debug, PartialEq, Eq)]
pub enum Outcome {
    /// The document's cut and certificate are settled.
    Settled,
    /// They aren't.
    NotSettled,
    /// The document couldn't be read as a cut and a certificate.
    Refused,
}

/// What is answered where firm is asked for.
#[derive(Clone, Copy, Debug, PartialEq, Eq)]
pub enum Firmness {
    /// The document's cut and certificate are firm.
    Firm,
    /// They aren't: they aren't settled, or some version is beyond the winner's.
    NotFirm,
    /// The document couldn't be read as a cut and a certificate.
    Refused,
}

/// What is answered where a certificate is asked for.
#[derive(Clone, Copy, Debug, PartialEq, Eq)]
pub enum Certified {
    /// The document's cut was written with the list of its names' winners.
    Written,
    /// A known name of the cut has no winner.
    NoWinner,
    /// The document couldn't be read as a cut.
    Refused,
}

/// What is answered where a certificate is asked for as far as there are winners.
#[derive(Clone, Copy, Debug, PartialEq, Eq)]
pub enum Partial {
    /// The document's cut was written with the list of its names' winners.
    Whole,
    /// It was written with the winners of the names that have one; some known name has none.
    Part,
    /// The document couldn't be read as a cut.
    Refused,
}
