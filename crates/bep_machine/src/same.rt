//! Comparison of messages, of steps and of events in all that they hold.
ghost use Rattle.std.specs.Prelude.{◌≡◌, ◌↔◌, IsTrue};
ghost use Rattle.std.specs.Option.{option_copied};

use crate::{Announced, Exchanged, Logged, Message, Request, Response, Step, Traffic};
use bep_record::Same;

impl Same for Announced {
    fn same(&self, other: &Announced) -> bool {
        self.folder == other.folder
            && self.index_id == other.index_id
            && self.sequence == other.sequence
            && self.known_id == other.known_id
            && self.known_sequence == other.known_sequence
    }
}

impl Same for Request {
    fn same(&self, other: &Request) -> bool {
        self.id == other.id
            && self.folder == other.folder
            && self.name == other.name
            && self.offset == other.offset
            && self.size == other.size
            && self.hash == other.hash
    }
}

impl Same for Response {
    fn same(&self, other: &Response) -> bool {
        self.id == other.id && self.code == other.code && self.bytes.same(&other.bytes)
    }
}

impl Same for Message {
    fn same(&self, other: &Message) -> bool {
        match (self, other) {
            (Message::ClusterConfig(named), Message::ClusterConfig(others)) => named.same(others),
            (Message::Index(folder, batch), Message::Index(name, records)) => {
                folder == name && batch.same(records)
            }
            (Message::IndexUpdate(folder, batch), Message::IndexUpdate(name, records)) => {
                folder == name && batch.same(records)
            }
            (Message::Request(request), Message::Request(other)) => request.same(other),
            (Message::Response(response), Message::Response(other)) => response.same(other),
            _ => false,
        }
    }
}

// A letter is the device, the other end, the folder, the name or the id of the first step, and the word is that of the
// second.
impl Same for Step {
    fn same(&self, other: &Step) -> bool {
        match (self, other) {
            (Step::Edit(d, f, n, node), Step::Edit(device, folder, name, held)) => {
                d == device && f == folder && n == name && node.same(held)
            }
            (Step::Remove(d, f, n), Step::Remove(device, folder, name))
            | (Step::Scan(d, f, n), Step::Scan(device, folder, name))
            | (Step::Override(d, f, n), Step::Override(device, folder, name))
            | (Step::Revert(d, f, n), Step::Revert(device, folder, name))
            | (Step::StartPull(d, f, n), Step::StartPull(device, folder, name))
            | (Step::Finish(d, f, n), Step::Finish(device, folder, name)) => {
                d == device && f == folder && n == name
            }
            (Step::Connect(d, e), Step::Connect(device, end))
            | (Step::Lose(d, e), Step::Lose(device, end))
            | (Step::Begin(d, e), Step::Begin(device, end))
            | (Step::Deliver(d, e), Step::Deliver(device, end)) => d == device && e == end,
            (Step::Announce(d, e, f), Step::Announce(device, end, folder)) => {
                d == device && e == end && f == folder
            }
            (Step::Ask(d, e, f, n), Step::Ask(device, end, folder, name)) => {
                d == device && e == end && f == folder && n == name
            }
            (Step::Restart(d), Step::Restart(device)) => d == device,
            (Step::Reset(d, i), Step::Reset(device, id)) => d == device && i == id,
            _ => false,
        }
    }
}

impl Same for Exchanged {
    fn same(&self, other: &Exchanged) -> bool {
        match (self, other) {
            (Exchanged::Sent(message), Exchanged::Sent(sent)) => message.same(sent),
            (Exchanged::Took(message, None), Exchanged::Took(taken, None)) => message.same(taken),
            (Exchanged::Took(message, Some(answer)), Exchanged::Took(taken, Some(sent))) => {
                message.same(taken) && answer.same(sent)
            }
            (Exchanged::Broke(message), Exchanged::Broke(taken)) => message.same(taken),
            _ => false,
        }
    }
}

impl Same for Traffic {
    fn same(&self, other: &Traffic) -> bool {
        self.epoch == other.epoch && self.done.same(&other.done)
    }
}

impl Same for Logged {
    fn same(&self, other: &Logged) -> bool {
        self.step.same(&other.step)
            && self.failed == other.failed
            && self.kept == other.kept
            && is_same_traffic(self.traffic.as_ref(), other.traffic.as_ref())
    }
}

fn is_same_traffic(traffic: Option<&Traffic>, other: Option<&Traffic>) -> bool
    ensures { IsTrue result ↔ (option_copied traffic.entry ≡ option_copied other.entry) }
{
    match (traffic, other) {
        (Some(traffic), Some(other)) => traffic.same(other),
        (None, None) => true,
        _ => false,
    }
}
