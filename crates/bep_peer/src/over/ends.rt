//! A link as a device at one of its ends sees it, and what the device sends over it.
ghost use Rattle.std.specs.Prelude.{◌≡◌, true, false, IfOk, IfErr, OnErr};
ghost use Rattle.bep_links.specs.Side.{end_at};
ghost use Rattle.bep_machine.specs.Link.{end_of, sight_of, sending, after_deed};
ghost use Rattle.bep_peer.specs.declared.error.PeerError.TheVariants.{Memory};

use crate::PeerError;
use bep_links::{Link, LinkError, Side};
use bep_machine::Message;
use bep_record::DeviceId;
use std::alloc::{AllocError, Global};

/// The end of the first device, of a link between the two.
pub(crate) fn side_of(device: DeviceId, other: DeviceId) -> Side
    ensures { end_at result ≡ end_of device other }
{
    if device < other {
        Side::Lower
    } else {
        Side::Upper
    }
}

/// Whether no message more can be sent from this end.
pub(crate) fn is_full(link: &Link, side: Side) -> bool
    ensures { result ≡ (sight_of (end_at side) link.now.link).full }
{
    link.is_full(side.opposite())
}

// Sends the message from this end, and answers what is told of it then. It fails only for want of memory, and then all is
// as before.
fn send<T: Drop>(link: &mut Link, side: Side, message: Message, told: T) -> Result<T, PeerError>
    requires up { link.old.link.up ≡ true }
    requires room { (sight_of (end_at side) link.old.link).full ≡ false }
    ensures ok { IfOk result (λ same. (same ≡ told) × (link.new ≡ record link.old { link = after_deed (end_at side) (sending message) link.old.link })) }
    ensures only { IfErr result (λ e. e ≡ Memory) }
    ensures err { OnErr result (link.new ≡ link.old) }
{
    match link.push(side.opposite(), message) {
        Ok(()) => Ok(told),
        Err(LinkError::Memory) => Err(PeerError::Memory),
        Err(_) => unreachable!(),
    }
}

/// Sends the message from this end, and answers two copies of it. It fails only for want of memory, and then all is as
/// before.
pub(crate) fn send_copied(
    alloc: Global,
    link: &mut Link,
    side: Side,
    message: Message,
) -> Result<(Message, Message), PeerError>
    requires up { link.old.link.up ≡ true }
    requires room { (sight_of (end_at side) link.old.link).full ≡ false }
    ensures ok { IfOk result (λ told. (told ≡ (message, message)) × (link.new ≡ record link.old { link = after_deed (end_at side) (sending message) link.old.link })) }
    ensures only { IfErr result (λ e. e ≡ Memory) }
    ensures err { OnErr result (link.new ≡ link.old) }
{
    let told = two_copies(alloc, &message)?;
    send(link, side, message, told)
}

fn two_copies(alloc: Global, message: &Message) -> Result<(Message, Message), AllocError>
    ensures { IfOk result (λ told. told ≡ (message.now, message.now)) }
{
    Ok((message.copy(alloc)?, message.copy(alloc)?))
}
