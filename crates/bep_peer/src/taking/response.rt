//! Taking the answer to a request.
ghost use Rattle.std.specs.Prelude.{◌≡◌, Bool, Some, IsSome, IfOk, OnOk, OnErr};
ghost use Rattle.std.specs.FinMap as map;
ghost use Rattle.bep_folder.specs.Received.{AreAsked};
ghost use Rattle.bep_folder.specs.Views.{unchanged};
ghost use Rattle.bep_machine.specs.Exchange.{MessageRow};
ghost use Rattle.bep_machine.specs.Peer.{Session as SessionOf};
ghost use Rattle.bep_machine.specs.declared.message.Message.TheVariants as messages;
ghost use Rattle.bep_peer.specs.inner.Effect.{SendsNone, Takes};
ghost use Rattle.bep_peer.specs.Member.{Remains, nothing_told, tables_of};
ghost use Rattle.bep_peer.specs.inner.Response.{Brings, answered_by, changed_at, received_by};

use crate::taking::answer::has_bytes;
use crate::taking::effect::Effect;
use crate::{Peer, PeerError, Session};
use bep_folder::{FolderError, Replica};
use bep_machine::{Request, Response};
use bep_map::{DeviceMap, FolderMap};
use bep_record::DeviceId;
use bep_store::Store;

impl<S: Store> Peer<S> {
    // Takes a response. One to no outstanding request is ignored; else the request isn't outstanding any more, and right
    // bytes count as received. It fails only for want of memory, and then all is as before.
    pub(crate) fn take_response(
        &mut self,
        other: DeviceId,
        response: &Response,
    ) -> Result<Effect, PeerError>
        requires untold { self.old.trace ≡ nothing_told }
        ensures step { (full : Bool) (session : SessionOf) → map.get self.old.sessions other ≡ Some session → Takes (MessageRow other self.new.trace.failed full session (messages.Response response.now) (tables_of self.old)) self.old self.new result }
        ensures rest { Remains self.old self.new }
        ensures told { self.new.trace ≡ nothing_told }
        ensures silent { IfOk result SendsNone }
        ensures err { OnErr result (tables_of self.new ≡ tables_of self.old) }
    {
        let Some(session) = self.sessions.get(other) else {
            return Ok(Effect::Taken);
        };
        let Some(request) = session.asked(response.id) else {
            return Ok(Effect::Taken);
        };
        match bring(&mut self.folders, request, response) {
            Ok(()) => {
                answered(&mut self.sessions, other, response.id);
                Ok(Effect::Taken)
            }
            Err(_) => Err(PeerError::Memory),
        }
    }
}

// Gives the folder's replica the bytes, if they are those that were asked for.
fn bring<S: Store>(
    folders: &mut FolderMap<Replica<S>>,
    request: &Request,
    response: &Response,
) -> Result<(), FolderError>
    ensures ok { OnOk result (Brings request.now response.now folders.old folders.new) }
    ensures err { OnErr result (folders.new ≡ changed_at request.now.folder unchanged (map.get folders.old request.now.folder) folders.old) }
{
    if !has_bytes(response, request) {
        return Ok(());
    }
    receive_in(folders, request, response.bytes.as_slice())
}

// Gives the folder's replica the bytes that answer the request, where the device has the folder.
fn receive_in<S: Store>(
    folders: &mut FolderMap<Replica<S>>,
    request: &Request,
    bytes: &[u8],
) -> Result<(), FolderError>
    requires { AreAsked request.now bytes.now }
    ensures ok { OnOk result (folders.new ≡ changed_at request.now.folder (received_by request.now bytes.now) (map.get folders.old request.now.folder) folders.old) }
    ensures err { OnErr result (folders.new ≡ changed_at request.now.folder unchanged (map.get folders.old request.now.folder) folders.old) }
{
    match folders.get_mut(&request.folder) {
        Some(replica) => replica.receive(request, bytes),
        None => Ok(()),
    }
}

// The request of this number isn't outstanding any more in the session with the other device.
fn answered(sessions: &mut DeviceMap<Session>, other: DeviceId, id: u32)
    requires { IsSome (map.get sessions.old other) }
    ensures { (session : SessionOf) → map.get sessions.old other ≡ Some session → sessions.new ≡ map.insert sessions.old other (answered_by id session) }
{
    match sessions.get_mut(other) {
        Some(session) => {
            let _request = session.answered(id);
        }
        None => unreachable!(),
    }
}
