//! The cut of a cluster: what its devices recorded, hold, know of others and pull at this moment, and what is on its way
//! between them. Cuts themselves are those of `bep_tables`, and their documents those of `bep_cut_document`, which stand on
//! no peers; all their names are given on here.
//!
//! ```rust
//! let (mut peers, links) = cluster.into_parts();
//! let cut = cut_of(alloc, peers.as_mut_slice(), links.as_slice())?;
//! ```
#![tactic(auto)]

mod cut;
mod error;
mod flights;
mod folder;
mod folders;
mod laws;
mod links;
mod names;
mod points;
mod records;
mod share;
mod sound;
mod views;

pub use bep_cut_document::{
    CutValue, DocError, DocFault, DocVersion, Fault, MAX_BYTES, check_document, cut_is_as_written,
    read_check, read_cut, winners_are_in_range,
};
pub use bep_scenario::{Scenario, read_scenario};
pub use bep_tables::{
    Cut, CutParts, Flight, Held, LinkState, PeerView, Row, Share, SharedFolder, Source, Table,
    TableEntry, cut_says, entries_are_held, names_are_known,
};
pub use cut::cut_of;
pub use error::CutError;
pub use laws::{clusters_are_parts, cut_says_cluster, same_cluster_same_cut};
pub use names::folder_names;
pub use points::cut_says_points;
pub use sound::parts_are_sound;
