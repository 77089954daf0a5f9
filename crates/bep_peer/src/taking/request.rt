//! Taking a request for a block.
ghost use Rattle.std.specs.Prelude.{◌≡◌, ◌↔◌, ◌⊎◌, false, Option, Some, None, Contains, IsSome, IsTrue, IfOk, IfErr, IfSome, OnErr};
ghost use Rattle.std.specs.Option.{option_copied};
ghost use Rattle.std.specs.FinMap as map;
ghost use Rattle.bep_record.specs.declared.node.NodeParts.{NodeParts};
ghost use Rattle.bep_store.specs.Range.{HasRangeHash};
ghost use Rattle.bep_store.specs.Sure.{NeverFails};
ghost use Rattle.bep_folder.specs.Held.{Held};
ghost use Rattle.bep_folder.specs.Makes.{CountsFaults, Stays};
ghost use Rattle.bep_folder.specs.Unhidden.{RefusesNone};
ghost use Rattle.bep_folder.specs.declared.error.FolderError.TheVariants.{StoreFault, Memory as OutOfMemory};
ghost use Rattle.bep_machine.specs.Replica.{node_at};
ghost use Rattle.bep_machine.specs.Exchange.{Answers, IsNamed, MessageRow};
ghost use Rattle.bep_machine.specs.Peer.{Session as SessionOf};
ghost use Rattle.bep_machine.specs.declared.message.Message.TheVariants as messages;
ghost use Rattle.bep_peer.specs.Delivered.{failure_of};
ghost use Rattle.bep_peer.specs.inner.Effect.{TellsAnswer, Takes, deed_of};
ghost use Rattle.bep_peer.specs.Member.{Remains, nothing_told, tables_of};
ghost use Rattle.bep_peer.specs.inner.Request.{IsNodeAt, ReadsFrom, failed_by};
ghost use Rattle.bep_peer.specs.Unhidden.{GoesOn};
ghost use Rattle.bep_peer.specs.declared.error.PeerError.TheVariants.{Memory};

use crate::taking::answer::{answer_known, answer_to, refuse};
use crate::taking::effect::Effect;
use crate::{Peer, PeerError};
use bep_folder::{FolderError, Replica};
use bep_machine::{Code, Refusal, Request, Response};
use bep_map::FolderMap;
use bep_record::{DeviceId, FolderName, Name, Node};
use bep_store::Store;
use std::alloc::Global;

impl<S: Store> Peer<S> {
    // Takes a request over a link on which no message more can be sent where it is full. A folder that the session doesn't
    // name breaks the protocol. Refuses `LinkFull` before the file is read, and else only for want of memory.
    pub(crate) fn take_request(
        &mut self,
        other: DeviceId,
        request: &Request,
        full: bool,
    ) -> Result<Effect, PeerError>
        requires untold { self.old.trace ≡ nothing_told }
        ensures step { (session : SessionOf) → map.get self.old.sessions other ≡ Some session → Takes (MessageRow other self.new.trace.failed full session (messages.Request request.now) (tables_of self.old)) self.old self.new result }
        ensures unhidden { GoesOn result → (session : SessionOf) → map.get self.old.sessions other ≡ Some session → RefusesNone (MessageRow other self.new.trace.failed full session (messages.Request request.now) (tables_of self.old)) }
        ensures rest { Remains self.old self.new }
        ensures told { TellsAnswer self.new.trace result }
        ensures room { IfOk result (λ effect. IsSome (deed_of effect).sends → full ≡ false) }
        ensures same { tables_of self.new ≡ tables_of self.old }
    {
        if !self.is_named(other, &request.folder) {
            return Ok(Effect::Lost);
        }
        if full {
            return Err(PeerError::Refused(Refusal::LinkFull));
        }
        let hash = self.hash_at_hand(request);
        if let Some(node) = self.node_at_hand(&request.folder, &request.name) {
            return Ok(Effect::Answered(answer_seen(self.alloc, request, node, hash)?));
        }
        let read = self.read(&request.folder, &request.name);
        Ok(Effect::Answered(answer_read(self.alloc, request, read)?))
    }

    // Whether the session with the other device names the folder, which both share then.
    pub(crate) fn is_named(&self, other: DeviceId, folder: &FolderName) -> bool
        ensures value { (session : SessionOf) → map.get self.now.sessions other ≡ Some session → (IsTrue result ↔ IsNamed session folder.now) }
        ensures shared { IsTrue result → (held : Held) × (map.get self.now.folders folder.now ≡ Some held) × Contains held.tables.others other }
    {
        match self.sessions.get(other) {
            Some(session) => session.cursor(folder).is_some(),
            None => false,
        }
    }

    // The hash of what is asked for, where the folder's store can tell it from its memory. So a block that is asked for again
    // and again is hashed once.
    fn hash_at_hand(&mut self, request: &Request) -> Option<[u8; 32]>
        ensures hash { IfSome result (λ hash. (held : Held) → map.get self.old.folders request.now.folder ≡ Some held → HasRangeHash (node_at held.tables request.now.name) request.now.offset request.now.size hash) }
        ensures same { self.new ≡ self.old }
    {
        hash_at(&mut self.folders, request)
    }

    // The folder's node at the name, lent, where its store has it at hand. So a large file isn't copied for each of its blocks.
    fn node_at_hand(&self, folder: &FolderName, name: &Name) -> Option<&Node>
        ensures { IfSome (option_copied result) (λ node. IsNodeAt self.now.folders folder.now name.now (Some node)) }
    {
        match self.folders.get(folder) {
            Some(replica) => replica.at_hand(name),
            None => None,
        }
    }

    // Reads the folder's node at the name, and tells of it if the store failed.
    fn read(&mut self, folder: &FolderName, name: &Name) -> Result<Option<Node>, FolderError>
        requires untold { self.old.trace ≡ nothing_told }
        requires there { IsSome (map.get self.old.folders folder.now) }
        ensures node { IfOk result (IsNodeAt self.old.folders folder.now name.now) }
        ensures told { self.new.trace ≡ record nothing_told { failed = failed_by result } }
        ensures rest { Remains self.old self.new }
        ensures same { tables_of self.new ≡ tables_of self.old }
    {
        let read = read_at(&mut self.folders, folder, name);
        self.trace.tell_failed(failed_by(&read));
        read
    }
}

// The hash of what is asked for, where the folder's store can tell it from its memory.
fn hash_at<S: Store>(folders: &mut FolderMap<Replica<S>>, request: &Request) -> Option<[u8; 32]>
    ensures hash { IfSome result (λ hash. (held : Held) → map.get folders.old request.now.folder ≡ Some held → HasRangeHash (node_at held.tables request.now.name) request.now.offset request.now.size hash) }
    ensures same { folders.new ≡ folders.old }
{
    match folders.get_mut(&request.folder) {
        Some(replica) => replica.hash_at_hand(&request.name, request.offset, request.size),
        None => None,
    }
}

// Reads the folder's node at the name, a copy of its own.
fn read_at<S: Store>(
    folders: &mut FolderMap<Replica<S>>,
    folder: &FolderName,
    name: &Name,
) -> Result<Option<Node>, FolderError>
    requires { IsSome (map.get folders.old folder.now) }
    ensures reads { ReadsFrom folder.now name.now folders.old folders.new result }
    ensures sure { NeverFails S.faults → failed_by result ≡ None }
{
    match folders.get_mut(folder) {
        Some(replica) => look_at(replica, name),
        None => unreachable!(),
    }
}

// The folder's node at the name, a copy of its own; a store that never fails gives it, or wants memory.
fn look_at<S: Store>(replica: &mut Replica<S>, name: &Name) -> Result<Option<Node>, FolderError>
    ensures node { IfOk result (λ node. node ≡ node_at replica.old.tables name.now) }
    ensures same { replica.new.tables ≡ replica.old.tables }
    ensures only { IfErr result (λ e. (e ≡ StoreFault) ⊎ (e ≡ OutOfMemory)) }
    ensures stays { Stays replica.old replica.new }
    ensures counted { CountsFaults replica.old replica.new result }
    ensures sure { NeverFails S.faults → failed_by result ≡ None }
{
    let found = replica.look(name);
    let _told = replica.trace();
    found
}

// Which call of a store failed, counted from 1, where one read was all.
fn failed_by(read: &Result<Option<Node>, FolderError>) -> Option<u32>
    ensures { result ≡ failed_by read.now }
{
    match read {
        Err(FolderError::StoreFault) => Some(1),
        _ => None,
    }
}

// The answer to a request whose node is at hand, by the hash of what is asked for where it is known, or want of memory.
fn answer_seen(
    alloc: Global,
    request: &Request,
    node: &Node,
    hash: Option<[u8; 32]>,
) -> Result<Response, PeerError>
    requires known { IfSome hash (HasRangeHash (Some node.now) request.now.offset request.now.size) }
    ensures ok { IfOk result (Answers request.now None (Some node.now)) }
    ensures code { IfOk result (λ response. failure_of response.code ≡ None) }
    ensures only { IfErr result (λ e. e ≡ Memory) }
{
    if let Some(hash) = hash {
        return Ok(answer_known(alloc, request, node, &hash)?);
    }
    Ok(answer_to(alloc, request, Some(node))?)
}

// The answer to a request once its file was read, or want of memory.
fn answer_read(
    alloc: Global,
    request: &Request,
    read: Result<Option<Node>, FolderError>,
) -> Result<Response, PeerError>
    ensures ok { IfOk result (λ response. (node : Option NodeParts) → IfOk read (λ found. found ≡ node) → Answers request.now (failed_by read) node response) }
    ensures code { IfOk result (λ response. failed_by read ≡ failure_of response.code) }
    ensures only { IfErr result (λ e. e ≡ Memory) }
    ensures err { OnErr result (failed_by read ≡ None) }
{
    match read {
        Ok(node) => Ok(answer_to(alloc, request, node.as_ref())?),
        Err(FolderError::StoreFault) => Ok(refuse(request, Code::Generic)),
        Err(_) => Err(PeerError::Memory),
    }
}
