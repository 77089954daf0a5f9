//! Links.
ghost use Rattle.std.specs.Prelude.{◌≡◌, IfOk};
ghost use Rattle.bep_json.specs.Lists.{is_pair};
ghost use Rattle.bep_scenario.specs.Fresh.{read_fresh_link};
ghost use Rattle.bep_scenario.specs.inner.Fresh.{link_told};

use bep_document::LinkParts;
use bep_json::{DocVersion, Misread, Shaped, Taken, Told};
use bep_record::{DeviceId, Items};
use bep_tree::{Reader, WalkError};
use std::alloc::{AllocError, Global};
use std::marker::Model;

// A link that never was up: its two devices. In memory it is a fifth of what a document says of a link.
#[derive(Drop)]
pub(crate) struct FreshLink {
    a: DeviceId,
    b: DeviceId,
}

impl Model for FreshLink {
    ghost use Rattle.bep_document.specs.declared.parts.LinkParts.{LinkParts};
    ghost use Rattle.bep_scenario.specs.Fresh.{fresh_link};

    ghost Value = { LinkParts };

    ghost view = { λ link. fresh_link (link.a, link.b) };
}

impl Shaped for FreshLink {
    ghost has_shape = { λ _. is_pair };

    ghost reads = { λ _. read_fresh_link };
}

impl Taken for FreshLink {
    fn take(
        alloc: Global,
        version: DocVersion,
        reader: &mut Reader<'_>,
        depth: usize,
    ) -> Result<Told<Self>, WalkError> {
        let ends = <(u64, u64)>::take(alloc, version, reader, depth)?;
        Ok(link_told(ends))
    }
}

// The link between the devices of these numbers, where they are devices'.
fn link_told(told: Told<(u64, u64)>) -> Told<FreshLink>
    ensures { result ≡ link_told told }
{
    let (first, second) = told?;
    let (Some(a), Some(b)) = (DeviceId::read(first), DeviceId::read(second)) else {
        return Err(Misread::Range);
    };
    Ok(FreshLink { a, b })
}

// What a document says of such links, in order.
pub(crate) fn links_of(
    alloc: Global,
    fresh: Items<FreshLink>,
) -> Result<Items<LinkParts>, AllocError>
    ensures { IfOk result (λ links. links ≡ fresh) }
{
    let mut links = Vec::with_capacity(alloc, fresh.as_slice().len())?;
    for link in fresh.into_vec() {
        links.push(link_of(alloc, link))?;
    }
    Ok(Items::new(links))
}

fn link_of(alloc: Global, link: FreshLink) -> LinkParts
    ensures { result ≡ link }
{
    LinkParts {
        a: link.a,
        b: link.b,
        up: false,
        epoch: 0,
        to_a: Items::new(Vec::new(alloc)),
        to_b: Items::new(Vec::new(alloc)),
    }
}
