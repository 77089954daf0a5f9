//! The cluster before its first step: folders, the devices that share them, and links.
ghost use Rattle.std.specs.Prelude.{◌≡◌, IfOk};

mod folders;
mod links;
mod shares;

use bep_record::Items;
pub(crate) use links::{FreshLink, links_of};
use std::alloc::{AllocError, Global};
use std::marker::Model;

// A part of a cut in which nothing is recorded, kept, known or on its way, as a scenario writes it.
#[derive(Drop)]
pub(crate) struct Fresh<P> {
    part: P,
}

impl<P> Model for Fresh<P> {
    ghost Value = { P };

    ghost coded = { P.code };

    ghost view = { λ fresh. fresh.part };
}

// The parts, in order.
pub(crate) fn into_parts<P: Drop>(
    alloc: Global,
    fresh: Items<Fresh<P>>,
) -> Result<Items<P>, AllocError>
    ensures { IfOk result (λ parts. parts ≡ fresh) }
{
    let mut parts = Vec::with_capacity(alloc, fresh.as_slice().len())?;
    for one in fresh.into_vec() {
        parts.push(one.part)?;
    }
    Ok(Items::new(parts))
}
