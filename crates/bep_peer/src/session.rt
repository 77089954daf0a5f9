//! A device's session with another one.
ghost use Rattle.std.specs.Prelude.{◌≡◌, ◌↔◌, ◌<◌, ◌≤◌, ◌+◌, ◌++◌, ◌∷◌, ◌&&◌, [], true, length, Some, None, IsSome, IsOk, IsTrue, IfOk, IfErr, OnOk, OnErr};
ghost use Rattle.std.specs.Option.{option_copied};
ghost use Rattle.std.specs.FinMap as map;
ghost use Rattle.std.specs.Vec.{vec_capacity};
ghost use Rattle.bep_index.specs.declared.send.Plan.TheVariants.{Above};
ghost use Rattle.bep_machine.specs.Peer.{new_session};
ghost use Rattle.bep_machine.specs.Exchange.{asked_for, without, is_asked, is_about, same_bytes, request_for};
ghost use Rattle.bep_peer.specs.Session.{IsSession, IsNext, with_request};

use crate::requests::{place_of, same_bytes};
use bep_folder::is_about;
use bep_index::Plan;
use bep_machine::{MAX_OUTSTANDING, MAX_REQUEST_ID, Request};
use bep_map::FolderMap;
use bep_record::{Block, Duplicate, FolderName, Name};
use std::alloc::{AllocError, Global};
use std::marker::Model;

/// A device's session with another one, over one connection of their link.
///
/// BEP v1, 'Cluster Config' and 'Request'; sessions and their limits are this project's profile.
pub struct Session {
    epoch: u64,
    configured: bool,
    cursors: FolderMap<Plan>,
    outstanding: Vec<Request>,
    next: u32,
}

// By hand: a caller's proof then sees one call where it lets go of one, and not each field (docs/developing.md).
impl Drop for Session {
    fn drop(self) {
        let Session {
            epoch: _,
            configured: _,
            cursors: _,
            outstanding: _,
            next: _,
        } = self;
    }
}

impl Model for Session {
    ghost use Rattle.std.specs.Prelude.{◌≤◌};
    ghost use Rattle.std.specs.Vec.{vec_capacity};
    ghost use Rattle.bep_index.specs.contracts.send.Plan as plan;
    ghost use Rattle.bep_machine.specs.contracts.message.Request as request;
    ghost use Rattle.bep_machine.specs.declared.limits.TheConstants.{MAX_OUTSTANDING};
    ghost use Rattle.bep_machine.specs.Peer.{Session};
    ghost use Rattle.bep_peer.specs.Session.{IsSession, session_code};

    ghost Value = { Session };

    ghost coded = { session_code plan.the_row.coded request.the_row.coded };

    ghost view = { λ inside. record { epoch = inside.epoch; configured = inside.configured; cursors = inside.cursors; outstanding = inside.outstanding.items; next = inside.next } };

    // room for all requests is there from the beginning, so that a new one takes no memory
    ghost invariant = { λ inside. IsSession (record { epoch = inside.epoch; configured = inside.configured; cursors = inside.cursors; outstanding = inside.outstanding.items; next = inside.next }) × (MAX_OUTSTANDING ≤ vec_capacity inside.outstanding) };
}

impl Session {
    /// A session that begins in this epoch of the link, or want of memory.
    pub fn new(alloc: Global, epoch: u64) -> Result<Self, AllocError>
        ensures { IfOk result (λ made. made ≡ new_session epoch) }
    {
        Ok(Session {
            epoch,
            configured: false,
            cursors: FolderMap::new(alloc),
            outstanding: Vec::with_capacity(alloc, MAX_OUTSTANDING)?,
            next: 1,
        })
    }

    /// The link's epoch in which the session began.
    pub fn epoch(&self) -> u64
        ensures value { result ≡ self.now.epoch }
        ensures a_session { IsSession self.now }
    {
        self.epoch
    }

    /// Whether the other device's ClusterConfig was delivered.
    pub fn is_configured(&self) -> bool
        ensures value { result ≡ self.now.configured }
        ensures a_session { IsSession self.now }
    {
        self.configured
    }

    /// What is sent next of the folder, if the ClusterConfig named it.
    pub fn cursor(&self, folder: &FolderName) -> Option<Plan>
        ensures value { result ≡ map.get self.now.cursors folder.now }
        ensures a_session { IsSession self.now }
    {
        self.cursors.get(folder).copied()
    }

    /// The requests that weren't answered yet, in the order in which they were made.
    pub fn outstanding(&self) -> &[Request]
        ensures value { result.now ≡ self.now.outstanding }
        ensures a_session { IsSession self.now }
    {
        self.outstanding.as_slice()
    }

    /// The number of the next request.
    pub fn next_id(&self) -> u32
        ensures value { result ≡ self.now.next }
        ensures a_session { IsSession self.now }
    {
        self.next
    }

    /// A ClusterConfig was delivered: these are the cursors of the folders that it named. It takes no memory.
    pub fn configure(&mut self, cursors: FolderMap<Plan>)
        ensures { self.new ≡ record self.old { configured = true; cursors = cursors } }
    {
        self.configured = true;
        self.cursors = cursors;
    }

    /// The folder's records were sent up to this sequence. Answers the cursor that the folder had; without one nothing
    /// changes. It takes no memory.
    pub fn advance(&mut self, folder: &FolderName, sequence: u64) -> Option<Plan>
        ensures old { result ≡ map.get self.old.cursors folder.now }
        ensures named { IsSome result → self.new ≡ record self.old { cursors = map.insert self.old.cursors folder.now (Plan.Above sequence) } }
        ensures unnamed { result ≡ None → self.new ≡ self.old }
    {
        self.cursors.replace(folder, Plan::Above(sequence)).ok()
    }

    /// The next request, for this block of the file, or want of memory.
    pub fn next_request(
        &self,
        alloc: Global,
        folder: &FolderName,
        name: &Name,
        block: &Block,
    ) -> Result<Request, AllocError>
        ensures { IfOk result (λ request. request ≡ request_for self.now folder.now name.now block.now) }
    {
        Ok(Request {
            id: self.next,
            folder: folder.copy(alloc)?,
            name: name.copy(alloc)?,
            offset: block.offset,
            size: block.size,
            hash: block.hash,
        })
    }

    /// Whether one more request can be made: fewer than 64 are outstanding, and a number is left.
    pub fn can_ask(&self) -> bool
        ensures { IsTrue result ↔ ((length self.now.outstanding < MAX_OUTSTANDING) × (self.now.next ≤ MAX_REQUEST_ID)) }
    {
        self.outstanding.len() < MAX_OUTSTANDING && self.next <= MAX_REQUEST_ID
    }

    /// The request was made: it is outstanding from now on. It comes back, and nothing changes, exactly where no more can
    /// be made or its number isn't the next one. It takes no memory.
    pub fn ask(&mut self, request: Request) -> Result<(), Request>
        ensures next { IsOk result ↔ IsNext self.old request }
        ensures ok { OnOk result (self.new ≡ with_request self.old request) }
        ensures back { IfErr result (λ same. same ≡ request) }
        ensures err { OnErr result (self.new ≡ self.old) }
    {
        if !self.can_ask() || request.id != self.next {
            return Err(request);
        }
        self.next += 1;
        match self.outstanding.push(request) {
            Ok(()) => Ok(()),
            Err(_) => unreachable!(),
        }
    }

    /// The outstanding request of this number.
    pub fn asked(&self, id: u32) -> Option<&Request>
        ensures value { option_copied result ≡ asked_for id self.now.outstanding }
    {
        match place_of(self.outstanding.as_slice(), id) {
            Some(place) => Some(&self.outstanding[place]),
            None => None,
        }
    }

    /// The request of this number was answered: it isn't outstanding any more. It takes no memory.
    pub fn answered(&mut self, id: u32) -> Option<Request>
        ensures value { result ≡ asked_for id self.old.outstanding }
        ensures rest { self.new ≡ record self.old { outstanding = without id self.old.outstanding } }
    {
        match place_of(self.outstanding.as_slice(), id) {
            Some(place) => Some(self.outstanding.remove(place)),
            None => None,
        }
    }

    /// Whether an outstanding request is about this block of the file.
    pub fn is_asked(&self, folder: &FolderName, name: &Name, block: &Block) -> bool
        ensures { result ≡ is_asked self.now folder.now name.now block.now }
    {
        self.outstanding
            .iter()
            .any(|request| asks_for(request, folder, name, block))
    }

    /// An equal session of its own, or want of memory.
    pub fn copy(&self, alloc: Global) -> Result<Self, AllocError>
        ensures { IfOk result (λ made. made ≡ self.now) }
    {
        Ok(Session {
            epoch: self.epoch,
            configured: self.configured,
            cursors: self.cursors.copy(alloc)?,
            outstanding: copies_of(alloc, self.outstanding.as_slice())?,
            next: self.next,
        })
    }
}

impl Duplicate for Session {
    fn duplicate(&self, alloc: Global) -> Result<Self, AllocError> {
        self.copy(alloc)
    }
}

// Copies of the requests, with room for as many as a session can have.
fn copies_of(alloc: Global, requests: &[Request]) -> Result<Vec<Request>, AllocError>
    ensures requests { IfOk result (λ made. made.items ≡ requests.now) }
    ensures room { IfOk result (λ made. MAX_OUTSTANDING ≤ vec_capacity made) }
{
    let mut made = Vec::with_capacity(alloc, MAX_OUTSTANDING)?;
    for request in requests {
        made.push(request.copy(alloc)?)?;
    }
    Ok(made)
}

// Whether the request is about this block of the file.
fn asks_for(request: &Request, folder: &FolderName, name: &Name, block: &Block) -> bool
    ensures { result ≡ (same_bytes request.now.folder folder.now && (same_bytes request.now.name name.now && is_about request.now block.now)) }
{
    same_bytes(request.folder.as_bytes(), folder.as_bytes())
        && same_bytes(request.name.as_bytes(), name.as_bytes())
        && is_about(request, block)
}
