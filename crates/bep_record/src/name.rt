//! The names of files.
ghost use Rattle.std.specs.Prelude.{◌≡◌, ◌⊎◌, ◌↔◌, ℕ, List, All, IsTrue, IfOk, IfErr, IsErrOf, OnOk, Some, nat_eq, refl};
ghost use Rattle.std.specs.Ordering.{nat_cmp};
ghost use Rattle.std.specs.Hash as fed;
ghost use Rattle.std.specs.Cmp.Lexicographic.{pointwise, slice_cmp, nat_list_eq_equiv, nat_list_cmp_total, texts_ties, texts_po};
ghost use Rattle.std.specs.Cmp.{partial_equiv_from_equiv};
ghost use Rattle.std.specs.Cmp.Rules.{hashing};
ghost use Rattle.std.specs.String.{string_bytes};
ghost use Rattle.std.proofs.Common.{rules};
ghost use Rattle.bep_record.specs.Name.{IsName, IsPart, parts_of};

use crate::error::RecordError;
use crate::limits::MAX_NAME_LEN;
use crate::text::has_no_nul;
use std::alloc::{AllocError, Global};
use std::cmp::Ordering;
use std::hash::{Hash, Hasher};
use std::marker::Model;
use std::{fmt, str};

/// The name of a file in a folder: 1 to 1024 bytes of UTF-8 without NUL, whose parts between slashes are neither empty
/// nor `.` nor `..`. Names are compared by their bytes.
///
/// BEP v1, 'FileInfo', field 'name'; the limits are this project's profile.
pub struct Name {
    text: String,
}

// By hand: a caller's proof then sees one call where it lets go of one, and not each field (docs/developing.md).
impl Drop for Name {
    fn drop(self) {
        let Name { text: _ } = self;
    }
}

impl Model for Name {
    ghost Value = { List ℕ };

    ghost view = { λ name. string_bytes name.text };

    ghost invariant = { λ name. IsName (string_bytes name.text) };
}

// Whether a part of a name is good.
fn is_part(part: &str) -> bool
    ensures { IsTrue result ↔ IsPart part.now }
{
    match part {
        "" | "." | ".." => false,
        _ => true,
    }
}

// Whether each part of a name is good.
fn has_good_parts(text: &str) -> bool
    ensures { IsTrue result ↔ All IsPart (parts_of text.now) }
{
    text.split('/').all(|part| is_part(part))
}

// Whether the text is a name.
fn is_name(text: &str) -> bool
    ensures { IsTrue result ↔ IsName text.now }
{
    let bytes = text.as_bytes();
    if bytes.is_empty() || bytes.len() > MAX_NAME_LEN {
        return false;
    }
    has_no_nul(bytes) && has_good_parts(text)
}

impl Name {
    /// The name of these bytes. Refuses `NameBad` exactly where they are no name; `Memory` may come in place of a name.
    pub fn read(alloc: Global, bytes: &[u8]) -> Result<Name, RecordError>
        ensures ok { IfOk result (λ name. name ≡ bytes.now) }
        ensures a_name { OnOk result (IsName bytes.now) }

        ensures bad { IsErrOf result RecordError.NameBad ↔ (¬ IsName bytes.now) }
        ensures only { IfErr result (λ e. (e ≡ RecordError.NameBad) ⊎ (e ≡ RecordError.Memory)) }
        ensures out_of_memory { IsErrOf result RecordError.Memory → IsName bytes.now }
    {
        match str::from_utf8(bytes) {
            Ok(text) => Name::of_text(alloc, text),
            Err(_) => Err(RecordError::NameBad),
        }
    }

    /// The name with this text, as `read` makes it of its bytes.
    pub fn of_text(alloc: Global, text: &str) -> Result<Name, RecordError>
        ensures ok { IfOk result (λ name. name ≡ text.now) }
        ensures a_name { OnOk result (IsName text.now) }

        ensures bad { IsErrOf result RecordError.NameBad ↔ (¬ IsName text.now) }
        ensures only { IfErr result (λ e. (e ≡ RecordError.NameBad) ⊎ (e ≡ RecordError.Memory)) }
        ensures out_of_memory { IsErrOf result RecordError.Memory → IsName text.now }
    {
        if !is_name(text) {
            return Err(RecordError::NameBad);
        }
        let text = String::from_str(alloc, text)?;
        Ok(Name { text })
    }

    // The name with this text.
    pub(crate) fn from_text(text: String) -> Name
        requires { IsName (string_bytes text) }
        ensures { result ≡ string_bytes text }
    {
        Name { text }
    }

    /// The bytes of the name.
    pub fn as_bytes(&self) -> &[u8]
        ensures value { result.now ≡ self.now }
        ensures a_name { IsName self.now }
    {
        self.text.as_bytes()
    }

    /// The name as a text.
    pub fn as_str(&self) -> &str
        ensures value { result.now ≡ self.now }
        ensures a_name { IsName self.now }
    {
        self.text.as_str()
    }

    /// An equal name of its own, or want of memory.
    pub fn copy(&self, alloc: Global) -> Result<Name, AllocError>
        ensures { IfOk result (λ name. name ≡ self.now) }
    {
        Ok(Name {
            text: String::from_str(alloc, self.text.as_str())?,
        })
    }
}

impl PartialEq for Name {
    ghost eq = { pointwise nat_eq };

    ghost laws = { partial_equiv_from_equiv nat_list_eq_equiv };

    fn eq(&self, other: &Name) -> bool {
        self.as_str() == other.as_str()
    }
}

impl Eq for Name {
    ghost laws = { nat_list_eq_equiv };
}

impl PartialOrd for Name {
    ghost partial_cmp = { λ x y. Some (slice_cmp nat_cmp x y) };

    ghost laws = { texts_po };

    fn partial_cmp(&self, other: &Name) -> Option<Ordering> {
        Some(self.cmp(other))
    }
}

impl Ord for Name {
    ghost cmp = { slice_cmp nat_cmp };

    ghost total = { nat_list_cmp_total };

    ghost matches_partial_cmp = { λ x y. refl };

    ghost matches_eq = { texts_ties };

    fn cmp(&self, other: &Name) -> Ordering {
        self.as_str().cmp(other.as_str())
    }
}

impl Hash for Name {
    ghost hash_input = { fed.str };

    ghost respects_eq = { Prim.search (hashing, rules) };

    fn hash<H: Hasher>(&self, state: &mut H) {
        self.as_str().hash(state);
    }
}

impl fmt::Debug for Name {
    fn fmt<W: fmt::Write>(&self, f: &mut fmt::Formatter<W>) -> fmt::Result {
        fmt::Debug::fmt(self.as_str(), f)
    }
}

impl fmt::Display for Name {
    ghost output = { λ name. Some name };

    fn fmt<W: fmt::Write>(&self, f: &mut fmt::Formatter<W>) -> fmt::Result {
        f.write_str(self.as_str())
    }
}
