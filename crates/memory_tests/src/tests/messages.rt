//! `bep_machine`, `bep_fit` and `bep_links`.
use super::made::{HELLO, batch, docs, name, node};
use bep_fit::Stamped;
use bep_links::{Announced, Bytes, Code, Link, Message, Request, Response};
use bep_machine::{Exchanged, Logged, Step, Traffic};
use bep_record::{DeviceId, HASH_OF_NOTHING, Items};
use std::alloc::Global;

fn announced(alloc: Global) -> Option<Announced> {
    Some(Announced {
        folder: docs(alloc)?,
        index_id: 11,
        sequence: 1,
        known_id: 0,
        known_sequence: 0,
    })
}

fn request(alloc: Global) -> Option<Request> {
    let (folder, name) = (docs(alloc)?, name(alloc)?);
    Some(Request {
        id: 1,
        folder,
        name,
        offset: 0,
        size: 5,
        hash: HASH_OF_NOTHING,
    })
}

fn response(alloc: Global) -> Option<Response> {
    let bytes = Vec::from_slice(alloc, HELLO).ok()?;
    Some(Response {
        id: 1,
        code: Code::NoError,
        bytes: Bytes::of(bytes).ok()?,
    })
}

fn parts(alloc: Global) -> Option<[bool; 4]> {
    let (announced, request) = (announced(alloc)?, request(alloc)?);
    let response = response(alloc)?;
    Some([
        Announced::copy(&announced, alloc).is_ok(),
        Request::copy(&request, alloc).is_ok(),
        Response::copy(&response, alloc).is_ok(),
        Bytes::copy(&response.bytes, alloc).is_ok(),
    ])
}

fn config(alloc: Global) -> Option<Message> {
    let named = Vec::from_array(alloc, [announced(alloc)?]).ok()?;
    Some(Message::ClusterConfig(Items::new(named)))
}

fn index(alloc: Global) -> Option<Message> {
    let (folder, batch) = (docs(alloc)?, batch(alloc, 1)?);
    Some(Message::Index(folder, batch))
}

fn is_copied(alloc: Global, message: Option<Message>) -> bool {
    match message {
        Some(message) => Message::copy(&message, alloc).is_ok(),
        None => false,
    }
}

fn lost(alloc: Global) -> Option<[bool; 2]> {
    let mut link = Link::new(alloc, DeviceId::read(1)?, DeviceId::read(2)?)?;
    let up = link.connect().is_ok();
    Some([up, link.lose().is_ok()])
}

// What a device did that took a request and sent the answer.
fn exchanged(alloc: Global) -> Option<Exchanged> {
    let (request, response) = (request(alloc)?, response(alloc)?);
    Some(Exchanged::Took(Message::Request(request), Some(Message::Response(response))))
}

fn traffic(alloc: Global) -> Option<Traffic> {
    let done = exchanged(alloc)?;
    Some(Traffic { epoch: 1, done })
}

fn step(alloc: Global) -> Option<Step> {
    let (folder, name, node) = (docs(alloc)?, name(alloc)?, node(alloc)?);
    Some(Step::Edit(DeviceId::read(1)?, folder, name, node))
}

// An event with that step and that exchange; no cluster has one.
fn logged(alloc: Global) -> Option<Logged> {
    let (step, traffic) = (step(alloc)?, traffic(alloc)?);
    Some(Logged {
        step,
        failed: None,
        kept: false,
        traffic: Some(traffic),
    })
}

fn events(alloc: Global) -> Option<[bool; 3]> {
    let (done, traffic, step) = (exchanged(alloc)?, traffic(alloc)?, step(alloc)?);
    Some([
        Exchanged::copy(&done, alloc).is_ok(),
        Traffic::copy(&traffic, alloc).is_ok(),
        Step::copy(&step, alloc).is_ok(),
    ])
}

fn entries(alloc: Global) -> Option<[bool; 2]> {
    let event = logged(alloc)?;
    let copied = Logged::copy(&event, alloc).is_ok();
    let stamped = Stamped { ticket: 1, event };
    Some([copied, Stamped::copy(&stamped, alloc).is_ok()])
}

#[test]
fn messages_find_memory(rt: HostRuntime) {
    let alloc = rt.alloc();
    assert!(rt; parts(alloc) == Some([true; 4]));
    assert!(rt; is_copied(alloc, config(alloc)));
    assert!(rt; is_copied(alloc, index(alloc)));
    assert!(rt; lost(alloc) == Some([true; 2]));
    assert!(rt; events(alloc) == Some([true; 3]));
    assert!(rt; entries(alloc) == Some([true; 2]));
}
