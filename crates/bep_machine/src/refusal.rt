//! Why a step is refused.

/// Why a step is refused.
#[derive(Clone, Copy, Debug, PartialEq, Eq)]
pub enum Refusal {
    /// The device's counter has its greatest value.
    CounterFull,
    /// The version would have more than 16 counters.
    TooManyCounters,
    /// The conflict name would have more than 1024 bytes.
    NameBad,
    /// The index has given its greatest sequence number.
    SequenceFull,
    /// The index or the view would have more than 4096 names.
    IndexFull,
    /// A call of the store failed.
    StoreFault,
    /// The store's node isn't what the own record says: no scan has seen it yet.
    Unscanned,
    /// There is no pull, or nothing that the device needs.
    NotNeeded,
    /// A block of the target is missing.
    BlocksMissing,
    /// Something else stands at the conflict name.
    CopyExists,
    /// The folder has 64 pulls.
    PullsFull,
    /// The folder's kind forbids it.
    KindForbids,
    /// The id isn't above that of each index of the device.
    IndexIdOld,
    /// The link is down.
    LinkDown,
    /// 1024 messages are on their way already.
    LinkFull,
    /// The link has had its greatest epoch.
    EpochFull,
    /// The device has no session of the link's epoch, or none for this folder.
    NotBegun,
    /// The device, folder or link isn't there.
    NotShared,
    /// There is nothing to do.
    NothingToDo,
}
