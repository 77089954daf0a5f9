//! The rows of a certificate: their order, and how one is found by its name.
ghost use Rattle.std.specs.Prelude.{◌≡◌, ◌↔◌, IfOk, IfSome, IsNone, IsSome, Contains, option_map};
ghost use Rattle.std.specs.Option.{option_copied};
ghost use Rattle.bep_model.specs.Settled.{key_of, key_cmp, Rise, HasRow};
ghost use Rattle.bep_model.specs.Reasons.{first_disordered};

use bep_model::{Row, rows_rise_in_order};
use bep_record::{FolderName, Items, Name};
use std::alloc::{AllocError, Global};
use std::cmp::Ordering;
use std::marker::Model;

/// The rows by which a cut is said to be settled, in the order in which they were given.
#[derive(Debug)]
pub struct Certificate {
    rows: Items<Row>,
}

// By hand: a caller's proof then sees one call where it lets go of one, and not each field (docs/developing.md).
impl Drop for Certificate {
    fn drop(self) {
        let Certificate { rows: _ } = self;
    }
}

impl Model for Certificate {
    ghost use Rattle.std.specs.Prelude.{List};
    ghost use Rattle.bep_model.specs.declared.row.Row.{Row};

    ghost Value = { List Row };

    ghost view = { λ certificate. certificate.rows };
}

impl Certificate {
    /// The certificate of these rows, in any order, as given.
    pub fn of(rows: Vec<Row>) -> Self
        ensures { result ≡ rows.items }
    {
        Certificate {
            rows: Items::new(rows),
        }
    }

    /// The rows, as given.
    pub fn rows(&self) -> &[Row]
        ensures { result.now ≡ self.now }
    {
        self.rows.as_slice()
    }

    /// An equal certificate of its own, or want of memory.
    pub fn copy(&self, alloc: Global) -> Result<Self, AllocError>
        ensures { IfOk result (λ made. made ≡ self.now) }
    {
        let mut rows = Vec::with_capacity(alloc, self.rows().len())?;
        for row in self.rows() {
            rows.push(row.copy(alloc)?)?;
        }
        Ok(Certificate::of(rows))
    }
}

/// The first row that isn't above the row before it, by folder and then name; `None` where each is above.
pub fn first_disordered(rows: &[Row]) -> Option<&Row>
    ensures first { option_map key_of (option_copied result) ≡ first_disordered rows.now }
    ensures rise { IsNone result ↔ Rise rows.now }
{
    rows_rise_in_order();
    for place in 1..rows.len() {
        if !compare_rows(&rows[place - 1], &rows[place]).is_lt() {
            return Some(&rows[place]);
        }
    }
    None
}

/// How two rows compare: by folder, then by name, each by its bytes.
pub fn compare_rows(one: &Row, other: &Row) -> Ordering
    ensures { result ≡ key_cmp (key_of one.now) (key_of other.now) }
{
    compare_row(one, &other.folder, &other.entry.entry().name)
}

/// How a row stands to this folder and name.
pub fn compare_row(row: &Row, folder: &FolderName, name: &Name) -> Ordering
    ensures { result ≡ key_cmp (key_of row.now) (folder.now, name.now) }
{
    let own_name = &row.entry.entry().name;
    row.folder.cmp(folder).then(own_name.cmp(name))
}

/// The row about this name in the folder, found by halving the rows; `None` exactly where no row is about it.
pub fn find_row<'a>(rows: &'a [Row], folder: &FolderName, name: &Name) -> Option<&'a Row>
    requires { Rise rows.now }
    ensures has { IsSome result ↔ HasRow rows.now folder.now name.now }
    ensures found { IfSome result (λ row. Contains rows.now row.now × (key_of row.now ≡ (folder.now, name.now))) }
{
    if rows.is_empty() {
        return None;
    }
    let middle = rows.len() / 2;
    let row = &rows[middle];
    match compare_row(row, folder, name) {
        Ordering::Less => find_row(&rows[middle + 1..], folder, name),
        Ordering::Equal => Some(row),
        Ordering::Greater => find_row(&rows[..middle], folder, name),
    }
}
