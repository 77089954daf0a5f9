//! What the auditor finds.
ghost use Rattle.std.specs.Prelude.{◌≡◌};
ghost use Rattle.bep_model.specs.Verdict.{Not};
ghost use Rattle.bep_audit.specs.Shown.{verdict_shown};

use crate::spot::Spot;
use bep_model::Reason;
use bep_record::{DeviceId, FolderName, Name};

/// What the auditor finds, lent from what it was asked about.
#[derive(Clone, Copy, Debug, PartialEq, Eq)]
pub enum Verdict<'a> {
    /// The cut and the certificate are settled.
    Settled,
    /// The first reason that fails, and where: a folder, a name, and the device where it fails at one.
    Not(Reason, &'a FolderName, &'a Name, Option<DeviceId>),
}

impl<'a> Verdict<'a> {
    /// That the reason fails at this place.
    pub(crate) fn at(reason: Reason, spot: Spot<'a>) -> Self
        ensures { verdict_shown result ≡ Not reason spot.entry.folder.now spot.entry.name.now spot.entry.device }
    {
        Verdict::Not(reason, spot.folder, spot.name, spot.device)
    }
}
