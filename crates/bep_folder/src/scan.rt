//! Recording what a scan found, and a scan as a whole.

mod commit;
mod found;
mod whole;

pub(crate) use commit::put_record;
