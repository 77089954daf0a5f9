//! Why a step or a configuration is refused, as the product prints it.
ghost use Rattle.std.specs.Prelude.{◌≡◌, option_map};
ghost use Rattle.bep_core.specs.Why.{number_of, name_of, name_of_refusal};

use bep_machine::Refusal;
use bep_peer::PeerError;
use thiserror::Error;

/// Why a cluster, or a step of it, was refused.
#[derive(Clone, Copy, Debug, Error, PartialEq, Eq)]
pub enum Why {
    /// The step was refused.
    #[error("the step is refused")]
    Refused(Refusal),
    /// The configuration would break one of its rules.
    #[error("no configuration may be so")]
    ConfigBad,
    /// Memory ran out.
    #[error("out of memory")]
    Memory,
}

impl Why {
    /// The number that the product prints; `Memory` has none.
    pub fn number(self) -> Option<u32>
        ensures { result ≡ number_of self }
    {
        match self {
            Why::Refused(refusal) => PeerError::Refused(refusal).number(),
            Why::ConfigBad => Some(164),
            Why::Memory => None,
        }
    }

    /// The name that the product prints; `Memory` has none.
    pub fn name(self) -> Option<&'static str>
        ensures { option_map (λ name. name.now) result ≡ name_of self }
    {
        match self {
            Why::Refused(refusal) => Some(name_of(refusal)),
            Why::ConfigBad => Some("ConfigBad"),
            Why::Memory => None,
        }
    }
}

fn name_of(refusal: Refusal) -> &'static str
    ensures { result.now ≡ name_of_refusal refusal }
{
    match refusal {
        Refusal::CounterFull => "CounterFull",
        Refusal::TooManyCounters => "TooManyCounters",
        Refusal::NameBad => "NameBad",
        Refusal::SequenceFull => "SequenceFull",
        Refusal::IndexFull => "IndexFull",
        Refusal::StoreFault => "StoreFault",
        Refusal::Unscanned => "Unscanned",
        Refusal::NotNeeded => "NotNeeded",
        Refusal::BlocksMissing => "BlocksMissing",
        Refusal::CopyExists => "CopyExists",
        Refusal::PullsFull => "PullsFull",
        Refusal::KindForbids => "KindForbids",
        Refusal::IndexIdOld => "IndexIdOld",
        Refusal::LinkDown => "LinkDown",
        Refusal::LinkFull => "LinkFull",
        Refusal::EpochFull => "EpochFull",
        Refusal::NotBegun => "NotBegun",
        Refusal::NotShared => "NotShared",
        Refusal::NothingToDo => "NothingToDo",
    }
}
