//! Links between two devices.
ghost use Rattle.std.specs.Prelude.{◌≡◌, Ok};
ghost use Rattle.bep_document.specs.inner.Links.{link_names, link_slots, link_told, link_things, link_of};
ghost use Rattle.bep_document.specs.read.Links.{is_link, read_link};

use crate::{Few, FlightParts, LinkParts};
use bep_json::{
    DocVersion, Misread, Sequence, Shaped, Slots, Taken, Told, both, due, due_or, fill, fill_leaf,
    take_object,
};
use bep_record::{DeviceId, MAX_MESSAGES};
use bep_tree::{Reader, WalkError};
use std::alloc::Global;

// The things that the members say.
type LinkThings = (
    DeviceId,
    (
        DeviceId,
        (
            bool,
            (
                Sequence,
                (
                    Few<FlightParts, MAX_MESSAGES>,
                    Few<FlightParts, MAX_MESSAGES>,
                ),
            ),
        ),
    ),
);

// What is told of the members of a link.
#[derive(Drop)]
pub(crate) struct LinkSlots {
    a: Option<Told<DeviceId>>,
    b: Option<Told<DeviceId>>,
    up: Option<Told<bool>>,
    epoch: Option<Told<Sequence>>,
    to_a: Option<Told<Few<FlightParts, MAX_MESSAGES>>>,
    to_b: Option<Told<Few<FlightParts, MAX_MESSAGES>>>,
}

impl Slots for LinkSlots {
    ghost names = { link_names };

    ghost known = { link_slots };

    fn none() -> Self {
        LinkSlots {
            a: None,
            b: None,
            up: None,
            epoch: None,
            to_a: None,
            to_b: None,
        }
    }

    fn take(
        &mut self,
        alloc: Global,
        version: DocVersion,
        key: &str,
        reader: &mut Reader<'_>,
        depth: usize,
    ) -> Result<bool, WalkError> {
        match key {
            "a" => fill_leaf(&mut self.a, alloc, version, reader, depth),
            "b" => fill_leaf(&mut self.b, alloc, version, reader, depth),
            "up" => fill_leaf(&mut self.up, alloc, version, reader, depth),
            "epoch" => fill_leaf(&mut self.epoch, alloc, version, reader, depth),
            "to_a" => fill(&mut self.to_a, alloc, version, reader, depth),
            "to_b" => fill(&mut self.to_b, alloc, version, reader, depth),
            _ => Ok(false),
        }
    }
}

impl Shaped for LinkParts {
    ghost has_shape = { is_link };

    ghost reads = { read_link };
}

impl Taken for LinkParts {
    fn take(
        alloc: Global,
        version: DocVersion,
        reader: &mut Reader<'_>,
        depth: usize,
    ) -> Result<Told<Self>, WalkError> {
        let slots = take_object::<LinkSlots>(alloc, version, reader, depth)?;
        Ok(link_told(alloc, slots))
    }
}

// What is told of a link, by what is told of its members.
fn link_told(alloc: Global, slots: Option<LinkSlots>) -> Told<LinkParts>
    ensures { result ≡ link_told slots }
{
    let Some(slots) = slots else {
        return Err(Misread::Shape);
    };
    match things_told(alloc, slots) {
        Ok(things) => link_of(things),
        Err(misread) => Err(misread),
    }
}

// What is told of all members.
fn things_told(alloc: Global, slots: LinkSlots) -> Told<LinkThings>
    ensures { result ≡ link_things slots }
{
    let LinkSlots {
        a,
        b,
        up,
        epoch,
        to_a,
        to_b,
    } = slots;
    both(
        due(a),
        both(
            due(b),
            both(
                due(up),
                both(
                    due(epoch),
                    both(
                        due_or(to_a, Few::none(alloc)),
                        due_or(to_b, Few::none(alloc)),
                    ),
                ),
            ),
        ),
    )
}

// The link that has these things.
fn link_of(things: LinkThings) -> Told<LinkParts>
    ensures { result ≡ Ok (link_of things) }
{
    let (a, (b, (up, (epoch, (to_a, to_b))))) = things;
    Ok(LinkParts {
        a,
        b,
        up,
        epoch: epoch.number(),
        to_a: to_a.into_items(),
        to_b: to_b.into_items(),
    })
}
