//! Where symlinks point.
ghost use Rattle.std.specs.Prelude.{◌≡◌, ◌⊎◌, ◌↔◌, ℕ, List, [], IfOk, IfErr, IsErrOf, OnOk, MatchOption, nat_eq};
ghost use Rattle.std.specs.Cmp.Lexicographic.{pointwise, nat_list_eq_equiv};
ghost use Rattle.std.specs.Cmp.{partial_equiv_from_equiv};
ghost use Rattle.std.specs.String.{string_bytes};
ghost use Rattle.bep_record.specs.Target.{IsTarget};

use crate::error::RecordError;
use crate::limits::MAX_TARGET_LEN;
use crate::text::plain_text;
use std::alloc::{AllocError, Global};
use std::fmt;
use std::marker::Model;

/// Where a symlink points: at most 1024 bytes of UTF-8 without NUL. What is no symlink has the empty target.
///
/// BEP v1, 'FileInfo', field 'symlink_target'; the limit is this project's profile.
pub struct Target {
    text: String,
}

// By hand: a caller's proof then sees one call where it lets go of one, and not each field (docs/developing.md).
impl Drop for Target {
    fn drop(self) {
        let Target { text: _ } = self;
    }
}

impl Model for Target {
    ghost Value = { List ℕ };

    ghost view = { λ target. string_bytes target.text };

    ghost invariant = { λ target. IsTarget (string_bytes target.text) };
}

// The bytes as the text of a target, `None` where they are no target.
fn target_text(bytes: &[u8]) -> Option<&str>
    ensures { MatchOption result (¬ IsTarget bytes.now) (λ text. (text.now ≡ bytes.now) × IsTarget bytes.now) }
{
    if bytes.len() > MAX_TARGET_LEN {
        return None;
    }
    plain_text(bytes)
}

impl Target {
    /// The target of these bytes. Refuses `NodeBad` exactly where they are no target; `Memory` may come in place of a
    /// target.
    pub fn read(alloc: Global, bytes: &[u8]) -> Result<Target, RecordError>
        ensures ok { IfOk result (λ target. target ≡ bytes.now) }
        ensures a_target { OnOk result (IsTarget bytes.now) }

        ensures bad { IsErrOf result RecordError.NodeBad ↔ (¬ IsTarget bytes.now) }
        ensures only { IfErr result (λ e. (e ≡ RecordError.NodeBad) ⊎ (e ≡ RecordError.Memory)) }
        ensures out_of_memory { IsErrOf result RecordError.Memory → IsTarget bytes.now }
    {
        let Some(text) = target_text(bytes) else {
            return Err(RecordError::NodeBad);
        };
        let text = String::from_str(alloc, text)?;
        Ok(Target { text })
    }

    /// The empty target, of what is no symlink. It takes no memory.
    pub fn empty(alloc: Global) -> Target
        ensures { result ≡ [] }
    {
        Target {
            text: String::new(alloc),
        }
    }

    /// The bytes of the target.
    pub fn as_bytes(&self) -> &[u8]
        ensures value { result.now ≡ self.now }
        ensures a_target { IsTarget self.now }
    {
        self.text.as_bytes()
    }

    /// The target as a text.
    pub fn as_str(&self) -> &str
        ensures value { result.now ≡ self.now }
        ensures a_target { IsTarget self.now }
    {
        self.text.as_str()
    }

    /// An equal target of its own, or want of memory.
    pub fn copy(&self, alloc: Global) -> Result<Target, AllocError>
        ensures { IfOk result (λ target. target ≡ self.now) }
    {
        Ok(Target {
            text: String::from_str(alloc, self.text.as_str())?,
        })
    }
}

impl PartialEq for Target {
    ghost eq = { pointwise nat_eq };

    ghost laws = { partial_equiv_from_equiv nat_list_eq_equiv };

    fn eq(&self, other: &Target) -> bool {
        self.as_str() == other.as_str()
    }
}

impl Eq for Target {
    ghost laws = { nat_list_eq_equiv };
}

impl fmt::Debug for Target {
    fn fmt<W: fmt::Write>(&self, f: &mut fmt::Formatter<W>) -> fmt::Result {
        fmt::Debug::fmt(self.as_str(), f)
    }
}
