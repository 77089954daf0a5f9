//! A cut audited in parts by names: what its parts say together is what the whole says.
//!
//! ```rust
//! settled_by_parts();
//! ```
#![tactic(auto)]

mod laws;

pub use laws::{
    documents_say_only, faults_by_parts, firm_by_parts, merged_is_settled, settled_by_parts,
    verdict_by_parts,
};
