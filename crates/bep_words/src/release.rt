//! Which release the program is.

/// The version and the date of its commit, which `--version` tells and the making of a release writes here.
pub(crate) const RELEASE: &str = "0.22.2 (2026-12-01)";
