//! A cut of a cluster: what each device recorded, held, knew of others and pulled in each folder at one moment, what was
//! on its way between them, and what all this says as tables. A caller looks at a cut so:
//!
//!     for shared in cut.folders() {
//!         for (name, _) in cut.known_names(alloc, &shared.folder)?.iter() { .. }
//!     }
//!
//! Nothing here knows of documents, or of running devices.
#![tactic(auto)]

mod cut;
mod laws;
mod link;
mod names;
mod share;
mod table;

pub use bep_model::{Flight, Row};
pub use cut::{Cut, CutParts};
pub use laws::{cut_says, names_are_known};
pub use link::LinkState;
pub use share::{PeerView, Share, SharedFolder};
pub use table::{Held, Source, Table, TableEntry, entries_are_held};
