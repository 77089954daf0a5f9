//! The members of documents, in the order in which their description names them.
use crate::members::Holds::{List, Single};
use crate::members::Need::{Due, May};
use crate::scenario::{FRESH_FOLDER, FRESH_SHARE, SCENARIO};
use bep_index::{MAX_NAMES, MAX_RECORDS};
use bep_record::{MAX_FOLDERS, MAX_MESSAGES, MAX_PULLS};

/// What is expected of a document.
#[derive(Clone, Copy, Debug, PartialEq, Eq)]
pub enum Expected {
    /// A cut and a certificate.
    Check,
    /// A cut, with any certificate or none.
    Cut,
    /// A cluster before its first step, and its steps.
    Scenario,
}

/// What may stand in a document.
#[derive(Clone, Copy, PartialEq, Eq)]
pub(crate) enum Sort {
    // objects
    CheckDocument,
    CutDocument,
    Cut,
    Folder,
    Share,
    View,
    Link,
    Message,
    Row,
    Record,
    Node,
    Scenario,
    FreshFolder,
    FreshShare,
    // lists of which each place has a sort of its own
    FreshLink,
    EditStep,
    NameStep,
    PairStep,
    AnnounceStep,
    AskStep,
    RestartStep,
    ResetStep,
    // one of these steps, by its word; of one piece where there is no such word
    Step,
    // values of one piece
    Anything,
    DocVersion,
    Flag,
    Id,
    AnyId,
    Sequence,
    Seconds,
    Nanoseconds,
    FileSize,
    BlockSize,
    Kind,
    FolderKind,
    FolderName,
    Name,
    Target,
    Hash,
    Version,
    Text,
    Hex,
}

/// A member of an object: its name, whether it must be there, and what stands in it.
#[derive(Clone, Copy)]
pub(crate) struct Member(pub(crate) &'static str, pub(crate) Need, pub(crate) Holds);

/// Whether a member must be there.
#[derive(Clone, Copy, PartialEq, Eq)]
pub(crate) enum Need {
    /// It must.
    Due,
    /// It may be left out.
    May,
}

/// What stands in a member.
#[derive(Clone, Copy)]
pub(crate) enum Holds {
    /// A value of this sort.
    Single(Sort),
    /// A list of such, at most so many.
    List(Sort, usize),
}

/// So many as there are: of a list of any length.
pub(crate) const ANY: usize = usize::MAX;

/// The members that an object of this sort may have; none where the sort is no object.
pub(crate) fn members_of(sort: Sort) -> &'static [Member] {
    match sort {
        Sort::CheckDocument => &CHECK_DOCUMENT,
        Sort::CutDocument => &CUT_DOCUMENT,
        Sort::Cut => &CUT,
        Sort::Folder => &FOLDER,
        Sort::Share => &SHARE,
        Sort::View => &VIEW,
        Sort::Link => &LINK,
        Sort::Message => &MESSAGE,
        Sort::Row => &ROW,
        Sort::Record => &RECORD,
        Sort::Node => &NODE,
        Sort::Scenario => &SCENARIO,
        Sort::FreshFolder => &FRESH_FOLDER,
        Sort::FreshShare => &FRESH_SHARE,
        _ => &[],
    }
}

static CHECK_DOCUMENT: [Member; 3] = [
    Member("version", Due, Single(Sort::DocVersion)),
    Member("cut", Due, Single(Sort::Cut)),
    Member("certificate", Due, List(Sort::Row, ANY)),
];

static CUT_DOCUMENT: [Member; 3] = [
    Member("version", Due, Single(Sort::DocVersion)),
    Member("cut", Due, Single(Sort::Cut)),
    Member("certificate", May, Single(Sort::Anything)),
];

static CUT: [Member; 2] = [
    Member("folders", Due, List(Sort::Folder, MAX_FOLDERS)),
    Member("links", May, List(Sort::Link, ANY)),
];

static FOLDER: [Member; 2] = [
    Member("folder", Due, Single(Sort::FolderName)),
    Member("devices", Due, List(Sort::Share, ANY)),
];

static SHARE: [Member; 8] = [
    Member("device", Due, Single(Sort::Id)),
    Member("kind", Due, Single(Sort::FolderKind)),
    Member("index_id", Due, Single(Sort::Id)),
    Member("max", Due, Single(Sort::Sequence)),
    Member("own", May, List(Sort::Record, MAX_NAMES)),
    Member("store", May, List(Sort::Node, ANY)),
    Member("views", May, List(Sort::View, ANY)),
    Member("pulls", May, List(Sort::Record, MAX_PULLS)),
];

static VIEW: [Member; 4] = [
    Member("of", Due, Single(Sort::Id)),
    Member("index_id", Due, Single(Sort::AnyId)),
    Member("max", Due, Single(Sort::Sequence)),
    Member("records", Due, List(Sort::Record, MAX_NAMES)),
];

static LINK: [Member; 6] = [
    Member("a", Due, Single(Sort::Id)),
    Member("b", Due, Single(Sort::Id)),
    Member("up", Due, Single(Sort::Flag)),
    Member("epoch", Due, Single(Sort::Sequence)),
    Member("to_a", May, List(Sort::Message, MAX_MESSAGES)),
    Member("to_b", May, List(Sort::Message, MAX_MESSAGES)),
];

static MESSAGE: [Member; 3] = [
    Member("folder", Due, Single(Sort::FolderName)),
    Member("full", Due, Single(Sort::Flag)),
    Member("records", Due, List(Sort::Record, MAX_RECORDS)),
];

static ROW: [Member; 3] = [
    Member("folder", Due, Single(Sort::FolderName)),
    Member("device", Due, Single(Sort::Id)),
    Member("record", Due, Single(Sort::Record)),
];

static RECORD: [Member; 13] = [
    Member("name", Due, Single(Sort::Name)),
    Member("type", Due, Single(Sort::Kind)),
    Member("modified_s", Due, Single(Sort::Seconds)),
    Member("modified_by", Due, Single(Sort::Id)),
    Member("version", Due, Single(Sort::Version)),
    Member("sequence", Due, Single(Sort::Sequence)),
    Member("size", May, Single(Sort::FileSize)),
    Member("modified_ns", May, Single(Sort::Nanoseconds)),
    Member("deleted", May, Single(Sort::Flag)),
    Member("invalid", May, Single(Sort::Flag)),
    Member("block_size", May, Single(Sort::BlockSize)),
    Member("blocks", May, List(Sort::Hash, ANY)),
    Member("target", May, Single(Sort::Target)),
];

static NODE: [Member; 7] = [
    Member("name", Due, Single(Sort::Name)),
    Member("type", Due, Single(Sort::Kind)),
    Member("modified_s", Due, Single(Sort::Seconds)),
    Member("modified_ns", May, Single(Sort::Nanoseconds)),
    Member("text", May, Single(Sort::Text)),
    Member("hex", May, Single(Sort::Hex)),
    Member("target", May, Single(Sort::Target)),
];
