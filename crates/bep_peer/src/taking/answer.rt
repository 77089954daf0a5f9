//! The answers to requests, and whether a response brings what was asked for.
ghost use Rattle.std.specs.Prelude.{◌≡◌, ◌↔◌, ◌<◌, ◌≤◌, ◌+◌, ◌^◌, length, take, drop, Some, None, IsTrue, IfOk, IfSome, IfNone};
ghost use Rattle.std.specs.Option.{option_copied};
ghost use Rattle.bep_blocks.specs.Plain.{hash_of};
ghost use Rattle.bep_store.specs.Range.{HasRangeHash};
ghost use Rattle.bep_machine.specs.declared.message.Code.TheVariants.{NoError};
ghost use Rattle.bep_machine.specs.Exchange.{Answers, HasBytes, HasRange, bytes_asked, refusing};

use bep_blocks::matches;
use bep_machine::{Bytes, Code, Request, Response};
use bep_record::{Block, Node};
use bep_store::range_of;
use std::alloc::{AllocError, Global};

/// The answer without bytes, and the reason why it has none. It takes no memory.
///
/// BEP v1, 'Response', field 'code'.
pub fn refuse(request: &Request, code: Code) -> Response
    ensures { result ≡ refusing request.now code }
{
    Response {
        id: request.id,
        code,
        bytes: Bytes::none(),
    }
}

/// The answer to a request by the node that was read at its name, or want of memory: `NoSuchFile` where the node isn't a
/// file or ends before the range does, else `InvalidFile` where the bytes don't have the hash that was asked for, else
/// the bytes.
///
/// BEP v1, 'Request' and 'Response'; that the hash is tested is this project's profile.
pub fn answer_to(
    alloc: Global,
    request: &Request,
    node: Option<&Node>,
) -> Result<Response, AllocError>
    ensures { IfOk result (λ response. Answers request.now None (option_copied node.entry) response) }
{
    let Some(bytes) = asked_bytes(request, node) else {
        return Ok(refuse(request, Code::NoSuchFile));
    };
    if !has_hash(bytes, &request.hash) {
        return Ok(refuse(request, Code::InvalidFile));
    }
    bringing(alloc, request, bytes)
}

/// The same answer by a node that is known to have the range that is asked for, and the range this hash; so it isn't hashed.
pub(crate) fn answer_known(
    alloc: Global,
    request: &Request,
    node: &Node,
    hash: &[u8; 32],
) -> Result<Response, AllocError>
    requires { HasRangeHash (Some node.now) request.now.offset request.now.size hash.now }
    ensures { IfOk result (Answers request.now None (Some node.now)) }
{
    let Some(bytes) = asked_bytes(request, Some(node)) else {
        unreachable!();
    };
    if *hash != request.hash {
        return Ok(refuse(request, Code::InvalidFile));
    }
    bringing(alloc, request, bytes)
}

// The answer that brings these bytes, or want of memory.
fn bringing(alloc: Global, request: &Request, bytes: &[u8]) -> Result<Response, AllocError>
    ensures { IfOk result (λ response. response ≡ record { id = request.now.id; code = NoError; bytes = bytes.now }) }
{
    Ok(Response {
        id: request.id,
        code: Code::NoError,
        bytes: Bytes::of(Vec::from_slice(alloc, bytes)?)?,
    })
}

/// Whether the response has the bytes that the request asked for: as many, and of that hash. It takes no memory.
pub fn has_bytes(response: &Response, request: &Request) -> bool
    ensures { IsTrue result ↔ HasBytes response.now request.now }
{
    let bytes = response.bytes.as_slice();
    matches!(response.code, Code::NoError)
        && bytes.len() == request.size as usize
        && has_hash(bytes, &request.hash)
}

// The part of the file that the request is about, if the node has it.
fn asked_bytes<'a>(request: &Request, node: Option<&'a Node>) -> Option<&'a [u8]>
    ensures some { IfSome result (λ bytes. HasRange request.now (option_copied node.entry) × (bytes.now ≡ bytes_asked request.now (option_copied node.entry)) × (length bytes.now < 2 ^ 32)) }
    ensures none { IfNone result (¬ HasRange request.now (option_copied node.entry)) }
{
    let Some(node) = node else {
        return None;
    };
    range_of(node, request.offset, request.size)
}

// Whether the bytes have this SHA-256.
fn has_hash(bytes: &[u8], hash: &[u8; 32]) -> bool
    requires { length bytes.now < 2 ^ 32 }
    ensures { IsTrue result ↔ (hash_of bytes.now ≡ hash.now) }
{
    let block = Block {
        offset: 0,
        size: bytes.len() as u32,
        hash: *hash,
    };
    matches(bytes, &[block])
}
