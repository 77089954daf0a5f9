//! The cut to which a scenario leads, under the list of its winners: its report, or its document.
ghost use Rattle.std.specs.Prelude.{◌≡◌, ◌++◌, IfOk};
ghost use Rattle.bep_cut.specs.Cut.{cut_at};
ghost use Rattle.bep_lines.specs.Text.{AppendsWhole};
ghost use Rattle.bep_answer.specs.Certified.{IsCertificate};
ghost use Rattle.bep_play.specs.Played.{IsEnd, list_lines, rows_told};

use bep_answer::{Certified, Outcome, audit_under_winners, certify_cut};
use bep_audit::Certificate;
use bep_core::Cluster;
use bep_cut::{clusters_are_parts, cut_of};
use bep_json::DocVersion;
use bep_report::{push_certificate, push_certificate_2};
use bep_store::MemStore;
use bep_tables::Cut;
use std::alloc::{AllocError, Global};

/// The outcome for the cluster's cut, and the text: what was told before, the report, and the certificate, if there is one.
pub(crate) fn report_on_end(
    alloc: Global,
    version: DocVersion,
    cluster: Cluster<MemStore>,
    told: Vec<u8>,
) -> Result<(Outcome, Vec<u8>), AllocError>
    ensures { IfOk result (λ answer. IsEnd version (cut_at cluster.members cluster.links) told.items answer.0 answer.1.items) }
{
    let cut = end_of(alloc, cluster)?;
    report_on_cut(alloc, version, &cut, told)
}

/// The outcome for the cluster's cut, and its check document of this version with its certificate, or the line of a name
/// without a winner.
pub(crate) fn document_of_end(
    alloc: Global,
    version: DocVersion,
    cluster: Cluster<MemStore>,
) -> Result<(Certified, Vec<u8>), AllocError>
    ensures { IfOk result (λ answer. IsCertificate version (cut_at cluster.members cluster.links) answer.0 answer.1.items) }
{
    let cut = end_of(alloc, cluster)?;
    certify_cut(alloc, version, &cut)
}

// The cluster's cut.
fn end_of(alloc: Global, cluster: Cluster<MemStore>) -> Result<Cut, AllocError>
    ensures { IfOk result (λ cut. cut ≡ cut_at cluster.members cluster.links) }
{
    clusters_are_parts();
    let (mut peers, links) = cluster.into_parts();
    match cut_of(alloc, peers.as_mut_slice(), links.as_slice()) {
        Ok(cut) => Ok(cut),
        // Only memory can be wanting, as a memory store never fails.
        Err(_) => Err(AllocError),
    }
}

/// The outcome for the cut under the list of its winners, and the text: what was told before, the report, and the certificate
/// as the run of a scenario of this version tells it, if there is one.
pub fn report_on_cut(
    alloc: Global,
    version: DocVersion,
    cut: &Cut,
    told: Vec<u8>,
) -> Result<(Outcome, Vec<u8>), AllocError>
    ensures { IfOk result (λ answer. IsEnd version cut.now told.items answer.0 answer.1.items) }
{
    let (outcome, report, certificate) = audit_under_winners(alloc, cut)?;
    let text = with_report(version, told, report.as_slice(), certificate)?;
    Ok((outcome, text))
}

// The text with the report and the certificate, if there is one.
fn with_report(
    version: DocVersion,
    mut text: Vec<u8>,
    report: &[u8],
    certificate: Option<Certificate>,
) -> Result<Vec<u8>, AllocError>
    ensures { IfOk result (λ whole. whole.items ≡ (text.items ++ report.now) ++ list_lines version certificate) }
{
    text.extend_from_slice(report)?;
    match certificate {
        Some(certificate) => {
            push_rows(version, &mut text, &certificate)?;
            Ok(text)
        }
        None => Ok(text),
    }
}

// Appends the certificate, as the run of a scenario of this version tells it.
fn push_rows(
    version: DocVersion,
    text: &mut Vec<u8>,
    certificate: &Certificate,
) -> Result<(), AllocError>
    ensures { AppendsWhole result text.old.items text.new.items (rows_told version certificate.now) }
{
    match version {
        DocVersion::One => push_certificate(text, certificate),
        DocVersion::Two => push_certificate_2(text, certificate),
    }
}
