//! Seats that are split and joined.
ghost use Rattle.std.specs.Prelude.{◌≡◌, []};
ghost use Rattle.bep_history.specs.View.{claims_of, first_row, joined, other_rows, view_of};

use crate::history::{History, Place};
use crate::plays::{Both, Claim, First};

impl History {
    /// The seat's first row, as a seat of its own.
    pub fn split(&self, seat: &mut Place) -> Place
        requires { seat.old.table_id ≡ self.now.table.shared.table_id }
        ensures seat { (seat.new.table_id ≡ seat.old.table_id) × (seat.new.me ≡ (other_rows seat.old.me.0, seat.old.me.1)) }
        ensures first { (result.table_id ≡ seat.old.table_id) × (result.me ≡ (first_row seat.old.me.0, [])) }
    {
        self.table.shared.split_seat::<First>(seat)
    }

    /// What the other seat owns and knows is the seat's, before what it had itself.
    pub fn join(&self, seat: &mut Place, other: Place)
        requires own { (seat.old.table_id ≡ self.now.table.shared.table_id) × (other.table_id ≡ self.now.table.shared.table_id) × (other.me.1 ≡ []) }
        ensures { (seat.new.table_id ≡ seat.old.table_id) × (seat.new.me ≡ (joined seat.old.me.0 other.me.0, seat.old.me.1)) }
    {
        self.table.shared.join_seat::<Both>(seat, other);
    }

    /// A receipt: a seat that owns nothing, and claims each event that the seat knows of. It is of this history alone: who
    /// takes one asks for its `table_id`, too, since another history has events of its own.
    pub fn receipt(&self, seat: &mut Place) -> Place
        requires { seat.old.table_id ≡ self.now.table.shared.table_id }
        ensures seat { (seat.new.table_id ≡ seat.old.table_id) × (seat.new.me ≡ seat.old.me) }
        ensures claims { (result.table_id ≡ seat.old.table_id) × (result.me ≡ (claims_of seat.old.me.0, [])) }
    {
        self.table.shared.split_seat::<Claim>(seat)
    }
}
