//! The answers to names in rising order, as they come.
ghost use Rattle.std.specs.Prelude.{◌≡◌, ◌↔◌, ◌∷◌, [], List, Some, None, IsErr, OnOk, OnErr, IsTrue};
ghost use Rattle.bep_model.specs.Tables.{Tables};
ghost use Rattle.bep_parts.specs.Parts.{only};
ghost use Rattle.bep_rows.specs.Names.{IsAbove, Key, NamesAreAmong, is_name};
ghost use Rattle.bep_rows.specs.Standing.{IsStanding};
ghost use Rattle.bep_rows.specs.Stream.{IsReadTo};
ghost use Rattle.bep_rows.specs.declared.aim.Aim.{Aim};

use crate::Standing;
use bep_parts::verdict_by_parts;
use bep_record::{FolderName, Name};
use std::mem;

/// What is answered of the names that were read so far, and which was the last. It is as large for many names as for one.
#[derive(Debug, Drop)]
pub struct Stream {
    last: Option<(FolderName, Name)>,
    standing: Standing,
}

/// The name isn't above the one before it, by folder and then name.
#[derive(Clone, Copy, Debug, PartialEq, Eq)]
pub struct NotAbove;

impl Stream {
    /// No name was read.
    pub fn new() -> Self
        ensures last { result.last ≡ None }
        ensures read { (aim : Aim) (t : Tables) → IsReadTo aim t [] result }
    {
        verdict_by_parts();
        Stream {
            last: None,
            standing: Standing::Met,
        }
    }

    /// Takes what is answered of the next name: of a cut that has this name alone. Where the name isn't above the last one,
    /// nothing is taken. It takes no memory.
    pub fn take(&mut self, folder: FolderName, name: Name, here: Standing) -> Result<(), NotAbove>
        ensures read { OnOk result ((aim : Aim) (t : Tables) (keys : List Key) → IsReadTo aim t keys self.old →
            IsStanding aim (only (is_name (folder, name)) t) here → IsReadTo aim t ((folder, name) ∷ keys) self.new) }
        ensures above { OnOk result (IsAbove (folder, name) self.old.last) }
        ensures last { OnOk result (self.new.last ≡ Some (folder, name)) }
        ensures order { IsErr result ↔ (¬ IsAbove (folder, name) self.old.last) }
        ensures err { OnErr result (self.new ≡ self.old) }
    {
        verdict_by_parts();
        if !self.is_above(&folder, &name) {
            return Err(NotAbove);
        }
        let before = mem::replace(&mut self.standing, Standing::Met);
        self.standing = before.joined(here);
        self.last = Some((folder, name));
        Ok(())
    }

    // Whether the name is above the last one.
    fn is_above(&self, folder: &FolderName, name: &Name) -> bool
        ensures { IsTrue result ↔ IsAbove (folder.now, name.now) self.now.last }
    {
        match &self.last {
            None => true,
            Some((in_folder, last)) => in_folder.cmp(folder).then(last.cmp(name)).is_lt(),
        }
    }

    /// The last name that was read, if there was one.
    pub fn last(&self) -> &Option<(FolderName, Name)>
        ensures { result.now ≡ self.now.last }
    {
        &self.last
    }

    /// What is answered of all names that were read. Of a cut that has no other name, it is the answer.
    pub fn standing(&self) -> &Standing
        ensures value { result.now ≡ self.now.standing }
        ensures whole { (aim : Aim) (t : Tables) (keys : List Key) → IsReadTo aim t keys self.now → NamesAreAmong t keys → IsStanding aim t result.now }
    {
        verdict_by_parts();
        &self.standing
    }

    /// The same, when no more names come.
    pub fn into_standing(self) -> Standing
        ensures { result ≡ self.standing }
    {
        let Stream { standing, .. } = self;
        standing
    }
}
