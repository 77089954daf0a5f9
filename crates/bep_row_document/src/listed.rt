//! Lists in a text whose items say each a thing of its own.
ghost use Rattle.std.specs.Prelude.{◌≡◌};
ghost use Rattle.bep_row_document.specs.Listed.{is_listed, read_listed};

use bep_json::{DocVersion, Misread, Shaped, Taken, Told, Tuple, enter_list};
use bep_tree::{Reader, WalkError};
use std::alloc::Global;
use std::marker::Model;

/// What the items of a list say, each at its place.
#[derive(Debug, Drop)]
pub struct Listed<R> {
    things: R,
}

impl<R> Model for Listed<R> {
    ghost Value = { R };

    ghost view = { λ listed. listed.things };
}

impl<R> Listed<R> {
    /// The things, lent.
    pub fn things(&self) -> &R
        ensures { result.now ≡ self.now }
    {
        &self.things
    }

    /// The things.
    pub fn into_things(self) -> R
        ensures { result ≡ self }
    {
        self.things
    }
}

impl<R: Tuple> Shaped for Listed<R> {
    ghost has_shape = { λ version. is_listed (R.have_shapes version) };

    ghost reads = { λ version. read_listed (R.reads version) };
}

impl<R: Tuple> Taken for Listed<R> {
    fn take(
        alloc: Global,
        version: DocVersion,
        reader: &mut Reader<'_>,
        depth: usize,
    ) -> Result<Told<Self>, WalkError> {
        let Some(inside) = enter_list(reader, depth)? else {
            return Ok(Err(Misread::Shape));
        };
        let things = R::take_items(alloc, version, reader, inside)?;
        Ok(listed_of(things))
    }
}

// The list of the things that are told.
fn listed_of<R: Drop>(told: Told<R>) -> Told<Listed<R>>
    ensures { result ≡ told }
{
    match told {
        Ok(things) => Ok(Listed { things }),
        Err(misread) => Err(misread),
    }
}
