//! What a device needs to act over a link: its end of the link, its session, who shares a folder, and what a ClusterConfig
//! says.

mod cluster_config;
mod ends;
mod in_session;
mod sharing;

pub(crate) use cluster_config::{config_for, is_shared_with};
pub use cluster_config::{cursor_for, names_once};
pub(crate) use ends::{is_full, send_copied, side_of};
