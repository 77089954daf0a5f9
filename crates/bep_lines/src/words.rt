//! The words that the report has for reasons.
ghost use Rattle.std.specs.Prelude.{◌≡◌};
ghost use Rattle.bep_lines.specs.Lines as spec;

use bep_model::{FirmReason, Reason};

/// The word by which the report names a reason.
pub fn word_of(reason: Reason) -> &'static str
    ensures { result.now ≡ spec.word_of reason }
{
    match reason {
        Reason::CertificateOrder => "CertificateOrder",
        Reason::NameMissing => "NameMissing",
        Reason::NameUnknown => "NameUnknown",
        Reason::NotWinner => "NotWinner",
        Reason::RecordMissing => "RecordMissing",
        Reason::RecordDiffers => "RecordDiffers",
        Reason::LocalOnly => "LocalOnly",
        Reason::StoreDiffers => "StoreDiffers",
        Reason::StoreUnclean => "StoreUnclean",
        Reason::ViewAhead => "ViewAhead",
        Reason::FlightAhead => "FlightAhead",
        Reason::PullAhead => "PullAhead",
    }
}

/// The word by which the report names a reason for which a settled cut isn't firm.
pub fn firm_word_of(reason: FirmReason) -> &'static str
    ensures { result.now ≡ spec.firm_word_of reason }
{
    match reason {
        FirmReason::VersionDiffers => "VersionDiffers",
        FirmReason::ViewNotBelow => "ViewNotBelow",
        FirmReason::FlightNotBelow => "FlightNotBelow",
        FirmReason::PullNotBelow => "PullNotBelow",
    }
}
