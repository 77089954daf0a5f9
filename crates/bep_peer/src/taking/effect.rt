//! What taking a message does to the link over which it came.

use bep_machine::Response;

// What is done to the link once a message was taken.
#[derive(Drop)]
pub(crate) enum Effect {
    // It goes from the link.
    Taken,
    // It goes from the link, and this response is sent.
    Answered(Response),
    // It breaks the protocol: the link is lost.
    Lost,
}
