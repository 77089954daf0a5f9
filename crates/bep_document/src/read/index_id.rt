//! Ids of indexes.
use bep_json::Whole;

/// The number of an index's id.
pub type IndexNumber = Whole<1, 18446744073709551615>;

// The number of an index's id, 0 if no index is known.
pub(crate) type AnyIndexNumber = Whole<0, 18446744073709551615>;
