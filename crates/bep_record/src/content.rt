//! What a record says is there, lent from it.
ghost use Rattle.std.specs.Prelude.{◌≡◌};
ghost use Rattle.bep_record.specs.Content.{content_lent};

use crate::{Block, Target};

/// What a name is, apart from its times and its history, lent from a record.
///
/// BEP v1, 'FileInfo'. Files of equal content have equal block lists, so the hashes of their bytes are equal. Nothing
/// says that bytes of equal hashes are equal.
#[derive(Clone, Copy, Debug)]
pub enum Content<'a> {
    /// Nothing is there.
    Deleted,
    /// A file of these blocks.
    File(&'a [Block]),
    /// A directory.
    Directory,
    /// A symlink that leads there.
    Symlink(&'a Target),
}

impl<'a> Content<'a> {
    /// The same content, lent once more. It takes no memory.
    pub fn copy(&self) -> Content<'a>
        ensures { content_lent result ≡ content_lent self.now }
    {
        *self
    }
}
