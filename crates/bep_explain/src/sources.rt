//! The records of others that a device knows of. No contract speaks of which these are.
use crate::coming::Coming;
use crate::detail::{Detail, What, add_record};
use bep_audit::is_harmless;
use bep_model::Row;
use bep_record::{DeviceId, Name, Record};
use bep_tables::{Held, Share};
use std::alloc::AllocError;

/// Which records of a name are asked for.
#[derive(Clone, Copy)]
pub(crate) enum Which<'a> {
    /// All of them.
    All,
    /// Those that aren't harmless beside this own record and the row.
    Ahead(Option<&'a Record>, &'a Row),
    /// Those whose version isn't at most the row's.
    NotBelow(&'a Row),
    /// Those that count more of this device's changes than this own record does.
    CountsMore(Option<&'a Record>, DeviceId),
}

/// Which records are asked for: these of this name.
#[derive(Drop)]
pub(crate) struct Asked<'a> {
    pub(crate) name: &'a Name,
    pub(crate) which: Which<'a>,
}

impl Asked<'_> {
    /// Whether the record is asked for.
    pub(crate) fn takes(&self, foreign: &Record) -> bool {
        if foreign.entry().name != *self.name {
            return false;
        }
        let valid = !foreign.entry().invalid;
        match self.which {
            Which::All => true,
            Which::Ahead(own, row) => valid && !is_harmless(own, &row.entry, foreign),
            Which::NotBelow(row) => {
                valid
                    && !foreign
                        .entry()
                        .version
                        .is_at_most(&row.entry.entry().version)
            }
            Which::CountsMore(own, device) => valid && counts_more(foreign, own, device),
        }
    }
}

/// Those in the device's views, each with the device whose index it is of.
pub(crate) fn add_views<'a>(
    details: &mut Vec<Detail<'a>>,
    asked: &Asked<'_>,
    share: &'a Share,
) -> Result<(), AllocError> {
    for view in share.views.as_slice() {
        let (at, of) = (Some(share.device), Some(view.of));
        add_if_asked(
            details,
            asked,
            What::View,
            at,
            of,
            view.records.get(asked.name),
        )?;
    }
    Ok(())
}

/// Those on their way to the device, each with its sender.
pub(crate) fn add_coming<'a>(
    details: &mut Vec<Detail<'a>>,
    asked: &Asked<'_>,
    coming: &[Coming<'a>],
    device: DeviceId,
) -> Result<(), AllocError> {
    for one in coming {
        if one.at.device == device {
            let (to, from) = (Some(device), Some(one.from));
            let record = record_of(one.at.held);
            add_if_asked(details, asked, What::Message, to, from, record)?;
        }
    }
    Ok(())
}

/// What the device pulls.
pub(crate) fn add_pull<'a>(
    details: &mut Vec<Detail<'a>>,
    asked: &Asked<'_>,
    share: &'a Share,
) -> Result<(), AllocError> {
    let (at, target) = (Some(share.device), share.pulls.get(asked.name));
    add_if_asked(details, asked, What::Pull, at, None, target)
}

fn counts_more(foreign: &Record, own: Option<&Record>, device: DeviceId) -> bool {
    let counted = match own {
        None => 0,
        Some(own) => own.entry().version.get(device),
    };
    foreign.entry().version.get(device) > counted
}

fn record_of(holding: Held<'_>) -> Option<&Record> {
    match holding {
        Held::Record(_, record) => Some(record),
        Held::Node(_) => None,
    }
}

fn add_if_asked<'a>(
    details: &mut Vec<Detail<'a>>,
    asked: &Asked<'_>,
    what: What,
    device: Option<DeviceId>,
    from: Option<DeviceId>,
    foreign: Option<&'a Record>,
) -> Result<(), AllocError> {
    match foreign {
        Some(foreign) if asked.takes(foreign) => {
            add_record(details, what, device, from, Some(foreign))
        }
        _ => Ok(()),
    }
}
