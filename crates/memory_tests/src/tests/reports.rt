//! `bep_report`, `bep_converge_check`.
ghost use Rattle.bep_tables.specs.Listed.{IsGrouped, cut_listed};

use super::made::CHECK;
use bep_audit::{Certificate, FirmVerdict, Verdict, certify, check, firm_verdict};
use bep_converge_check::{converge_verdict, converge_verdict_grouped};
use bep_cut_document::read_cut;
use bep_report::{
    push_certificate, push_firm_report, push_firm_report_by, push_folders_by, push_report,
    push_report_by, read_document, write_all,
};
use bep_tables::{Cut, Table};
use std::alloc::Global;

fn streams(alloc: Global, text: &mut Vec<u8>) -> [bool; 2] {
    let mut reader = CHECK.as_bytes();
    [
        read_document(alloc, &mut reader).is_ok(),
        write_all(text, b"a").is_ok(),
    ]
}

fn settled(alloc: Global, cut: &Cut, rows: &Certificate, text: &mut Vec<u8>) -> bool {
    match check(alloc, cut, rows) {
        Ok(verdict) => is_told(alloc, cut, &verdict, text),
        Err(_) => false,
    }
}

fn is_told(alloc: Global, cut: &Cut, verdict: &Verdict<'_>, text: &mut Vec<u8>) -> bool {
    push_report(alloc, text, cut, verdict).is_ok() && is_told_by_table(alloc, cut, verdict, text)
}

fn is_told_by_table(alloc: Global, cut: &Cut, verdict: &Verdict<'_>, text: &mut Vec<u8>) -> bool {
    match Table::of(alloc, cut) {
        Ok(table) => push_report_by(alloc, text, cut, &table, verdict).is_ok(),
        Err(_) => false,
    }
}

fn firm(alloc: Global, cut: &Cut, rows: &Certificate, text: &mut Vec<u8>) -> bool {
    match firm_verdict(alloc, cut, rows) {
        Ok(verdict) => is_firmly_told(alloc, cut, &verdict, text),
        Err(_) => false,
    }
}

fn is_firmly_told(alloc: Global, cut: &Cut, verdict: &FirmVerdict<'_>, text: &mut Vec<u8>) -> bool {
    push_firm_report(alloc, text, cut, verdict).is_ok()
        && is_firmly_told_by_table(alloc, cut, verdict, text)
}

fn is_firmly_told_by_table(
    alloc: Global,
    cut: &Cut,
    verdict: &FirmVerdict<'_>,
    text: &mut Vec<u8>,
) -> bool {
    match Table::of(alloc, cut) {
        Ok(table) => push_firm_report_by(alloc, text, cut, &table, verdict).is_ok(),
        Err(_) => false,
    }
}

fn converging(alloc: Global, cut: &Cut, text: &mut Vec<u8>) -> bool {
    match converge_verdict(alloc, cut) {
        Ok(_) => is_told_of_converging(alloc, cut, text),
        Err(_) => false,
    }
}

fn is_told_of_converging(alloc: Global, cut: &Cut, text: &mut Vec<u8>) -> bool {
    match Table::of(alloc, cut) {
        Ok(table) => tells_by_table(alloc, cut, &table, text),
        Err(_) => false,
    }
}

fn tells_by_table(alloc: Global, cut: &Cut, table: &Table<'_>, text: &mut Vec<u8>) -> bool
    requires { IsGrouped (cut_listed cut.now) table.now }
{
    match converge_verdict_grouped(alloc, cut, table) {
        Ok(_) => push_folders_by(alloc, text, cut, table).is_ok(),
        Err(_) => false,
    }
}

fn reported(alloc: Global, text: &mut Vec<u8>) -> Option<[bool; 4]> {
    let (_, cut) = read_cut(alloc, CHECK.as_bytes()).ok()?;
    let certificate = certify(alloc, &cut).ok()?;
    Some([
        settled(alloc, &cut, &certificate, text),
        firm(alloc, &cut, &certificate, text),
        converging(alloc, &cut, text),
        push_certificate(text, &certificate).is_ok(),
    ])
}

#[test]
fn reports_find_memory(rt: HostRuntime) {
    let mut text = Vec::new(rt.alloc());
    assert!(rt; streams(rt.alloc(), &mut text) == [true; 2]);
    assert!(rt; reported(rt.alloc(), &mut text) == Some([true; 4]));
}
