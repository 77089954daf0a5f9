//! Events that are told to a history, or tickets that are given up where nothing happened.
ghost use Rattle.std.specs.Prelude.{◌≡◌, [], IfSome};
ghost use Rattle.std.specs.Option.{option_copied};
ghost use Rattle.bep_history.specs.View.{AreOfTwo, MayAdd, joined, told, view_of};

use crate::history::{History, Place};
use bep_fit::Stamped;
use std::mem;

impl History {
    /// The event comes into the history under the seat's ticket, if there is one; else the ticket is given up.
    pub fn tell(&self, seat: &mut Place, event: Option<&Stamped>)
        requires own { seat.old.table_id ≡ self.now.table.shared.table_id }
        requires may { IfSome (option_copied event) (MayAdd self.now.table.shared.key.items (view_of seat.old)) }
        ensures { (seat.new.table_id ≡ seat.old.table_id) × (seat.new.me ≡ (told (option_copied event.entry) seat.old.me.0, seat.old.me.1)) }
    {
        match event {
            Some(event) => self.add(seat, event),
            None => self.give_up(seat),
        }
    }

    /// The same of an event that may touch the objects of two seats, under the first one's ticket.
    pub fn tell_both(&self, seat: &mut Place, other: &mut Place, event: Option<&Stamped>)
        requires own { (seat.old.table_id ≡ self.now.table.shared.table_id) × (other.old.table_id ≡ self.now.table.shared.table_id) }
        requires free { (seat.old.me.1 ≡ []) × (other.old.me.1 ≡ []) }
        requires two { AreOfTwo (view_of seat.old) (view_of other.old) }
        requires may { IfSome (option_copied event) (MayAdd self.now.table.shared.key.items (joined (view_of seat.old) (view_of other.old))) }
        ensures seat { (seat.new.table_id ≡ seat.old.table_id) × (seat.new.me ≡ (told (option_copied event.entry) seat.old.me.0, [])) }
        ensures other { (other.new.table_id ≡ other.old.table_id) × (other.new.me ≡ (told (option_copied event.entry) other.old.me.0, [])) }
    {
        let its = mem::replace(other, self.fresh());
        self.join(seat, its);
        self.tell(seat, event);
        *other = self.split(seat);
    }
}
