//! Why a cut isn't settled.

/// Why a cut isn't settled, in the order in which reasons are told.
#[derive(Clone, Copy, Debug, PartialEq, Eq)]
pub enum Reason {
    /// A row of the certificate isn't above the row before it.
    CertificateOrder,
    /// A known name has no row.
    NameMissing,
    /// A row's name isn't known.
    NameUnknown,
    /// A row doesn't hold the winner's device and record, or there is no winner.
    NotWinner,
    /// A device has no own record, though the winner isn't a deletion.
    RecordMissing,
    /// A device's own record has another content than the winner.
    RecordDiffers,
    /// A device's own record is local-only: a local change of a receive-only folder.
    LocalOnly,
    /// A device's store holds another content than the winner's.
    StoreDiffers,
    /// A device's node isn't clean against its own record.
    StoreUnclean,
    /// A record of a device's views isn't harmless.
    ViewAhead,
    /// A record on its way to a device isn't harmless.
    FlightAhead,
    /// The target of a device's pull isn't harmless.
    PullAhead,
}
