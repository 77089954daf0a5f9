//! The members of a scenario, and what belongs to each word of its steps.
use crate::members::Holds::{List, Single};
use crate::members::Need::Due;
use crate::members::{ANY, Member, Sort};
use bep_json::DocVersion;
use bep_record::MAX_FOLDERS;
use bep_tree::{Tree, as_str, at};

/// The members of a scenario.
pub(crate) static SCENARIO: [Member; 4] = [
    Member("version", Due, Single(Sort::DocVersion)),
    Member("folders", Due, List(Sort::FreshFolder, MAX_FOLDERS)),
    Member("links", Due, List(Sort::FreshLink, ANY)),
    Member("steps", Due, List(Sort::Step, ANY)),
];

/// The members of one of its folders.
pub(crate) static FRESH_FOLDER: [Member; 2] = [
    Member("folder", Due, Single(Sort::FolderName)),
    Member("devices", Due, List(Sort::FreshShare, ANY)),
];

/// The members of a device that shares it.
pub(crate) static FRESH_SHARE: [Member; 3] = [
    Member("device", Due, Single(Sort::Id)),
    Member("kind", Due, Single(Sort::FolderKind)),
    Member("index_id", Due, Single(Sort::Id)),
];

/// The sort, and of a step the one of its word, if it begins with one that documents of this version have.
pub(crate) fn sort_at(version: DocVersion, sort: Sort, value: &Tree<'_>) -> Sort {
    if sort != Sort::Step {
        return sort;
    }
    match at(value, 0) {
        Some(first) => sort_of_word(version, first),
        None => sort,
    }
}

fn sort_of_word(version: DocVersion, word: &Tree<'_>) -> Sort {
    match as_str(word) {
        Some(word) => sort_named(version, word),
        None => Sort::Step,
    }
}

fn sort_named(version: DocVersion, word: &str) -> Sort {
    match word {
        "edit" => Sort::EditStep,
        "remove" | "scan" | "override" | "revert" | "pull" | "finish" => Sort::NameStep,
        "connect" | "lose" | "begin" | "deliver" => Sort::PairStep,
        "announce" => Sort::AnnounceStep,
        "ask" => Sort::AskStep,
        "restart" => Sort::RestartStep,
        "reset" if version == DocVersion::Two => Sort::ResetStep,
        _ => Sort::Step,
    }
}

/// What stands at each place of a list of this sort, the first one first; nothing where the sort is no such list.
pub(crate) fn places_of(sort: Sort) -> &'static [Sort] {
    match sort {
        Sort::FreshLink => &[Sort::Id, Sort::Id],
        Sort::EditStep => &[WORD, Sort::Id, Sort::FolderName, Sort::Node],
        Sort::NameStep => &[WORD, Sort::Id, Sort::FolderName, Sort::Name],
        Sort::PairStep => &[WORD, Sort::Id, Sort::Id],
        Sort::AnnounceStep => &[WORD, Sort::Id, Sort::Id, Sort::FolderName],
        Sort::AskStep => &[WORD, Sort::Id, Sort::Id, Sort::FolderName, Sort::Name],
        Sort::RestartStep => &[WORD, Sort::Id],
        Sort::ResetStep => &[WORD, Sort::Id, Sort::Id],
        _ => &[],
    }
}

// the word of a step, which is known once its sort is
const WORD: Sort = Sort::Anything;
