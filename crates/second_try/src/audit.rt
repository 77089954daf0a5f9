//! The cut at the end, its certificate and verdict, and its document, each asked for once more where memory was wanting.
ghost use Rattle.bep_cut.specs.Parts.{AreParts};

use crate::logs::tell_logs;
use crate::telling::Told;
use crate::twice;
use bep_audit::{Certificate, CertifyError, Verdict, certify, check};
use bep_core::Cluster;
use bep_cut::{clusters_are_parts, cut_of};
use bep_cut_document::{CutValue, DocVersion, check_document};
use bep_links::Link;
use bep_peer::Peer;
use bep_report::{push_certificate, push_report};
use bep_store::MemStore;
use bep_tables::Cut;
use serde_json::Value;
use std::alloc::{AllocError, Global};

/// The cluster's cut. Tells the run cut of its devices and links, too.
pub(crate) fn cut_at_end(
    alloc: Global,
    cluster: Cluster<MemStore>,
    told: &mut Told,
) -> Result<Cut, AllocError> {
    clusters_are_parts();
    let (mut peers, links) = cluster.into_parts();
    let cut = take(alloc, peers.as_mut_slice(), links.as_slice(), told)?;
    tell_logs(alloc, peers, links, told)?;
    Ok(cut)
}

// The cut of these.
fn take(
    alloc: Global,
    peers: &mut [Peer<MemStore>],
    links: &[Link],
    told: &mut Told,
) -> Result<Cut, AllocError>
    requires { AreParts peers.old links.now }
{
    match twice!(told; cut_of(alloc, peers, links)) {
        Ok(cut) => Ok(cut),
        Err(_) => Err(AllocError),
    }
}

/// Tells the verdict on the cut under the list of its winners, that list, and the document of both; or that there is none.
pub(crate) fn audit(alloc: Global, cut: &Cut, told: &mut Told) -> Result<(), AllocError> {
    let read = read_back(alloc, cut, told)?;
    match certified(alloc, &read, told) {
        Ok(certificate) => audit_under(alloc, &read, &certificate, told),
        Err(CertifyError::NoWinner(_, name)) => {
            twice!(told; told.text.extend_from_slice(name.as_bytes()))
        }
        Err(CertifyError::Memory) => Err(AllocError),
    }
}

// The certificate, where only want of memory is asked about once more.
fn certified(alloc: Global, cut: &Cut, told: &mut Told) -> Result<Certificate, CertifyError> {
    match certify(alloc, cut) {
        Err(CertifyError::Memory) => {
            told.is_twice = true;
            certify(alloc, cut)
        }
        answer => answer,
    }
}

// The cut that the tree of this one says.
fn read_back(alloc: Global, cut: &Cut, told: &mut Told) -> Result<Cut, AllocError> {
    let tree = twice!(told; cut.to_value(alloc))?;
    read_of(alloc, &tree, told)
}

fn read_of(alloc: Global, tree: &Value, told: &mut Told) -> Result<Cut, AllocError> {
    match twice!(told; CutValue::from_value(alloc, DocVersion::Two, tree)) {
        Ok(cut) => Ok(cut),
        Err(_) => Err(AllocError),
    }
}

// Tells the verdict under the certificate.
fn audit_under(
    alloc: Global,
    cut: &Cut,
    certificate: &Certificate,
    told: &mut Told,
) -> Result<(), AllocError> {
    let copy = twice!(told; certificate.copy(alloc))?;
    match check(alloc, cut, &copy) {
        Ok(verdict) => tell(alloc, cut, &copy, &verdict, told),
        Err(_) => audit_again(alloc, cut, &copy, told),
    }
}

// The same where memory was wanting for the verdict.
fn audit_again(
    alloc: Global,
    cut: &Cut,
    certificate: &Certificate,
    told: &mut Told,
) -> Result<(), AllocError> {
    told.is_twice = true;
    match check(alloc, cut, certificate) {
        Ok(verdict) => tell(alloc, cut, certificate, &verdict, told),
        Err(error) => Err(error),
    }
}

// Tells the verdict, the certificate's lines and the document.
fn tell(
    alloc: Global,
    cut: &Cut,
    certificate: &Certificate,
    verdict: &Verdict<'_>,
    told: &mut Told,
) -> Result<(), AllocError> {
    twice!(told; push_report(alloc, &mut told.text, cut, verdict))?;
    twice!(told; push_certificate(&mut told.text, certificate))?;
    let document = twice!(told; check_document(alloc, DocVersion::Two, cut, certificate.rows()))?;
    twice!(told; told.text.extend_from_slice(document.as_bytes()))
}
