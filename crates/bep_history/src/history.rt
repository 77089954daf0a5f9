//! The counter of tickets, and what a seat does with it.
ghost use Rattle.std.specs.Prelude.{◌≡◌, ◌<◌, [], IfOk};
ghost use Rattle.bep_history.specs.View.{AreDistinct, AreOfTwo, IsAbove, IsTold, MayAdd, beginning, nothing, view_of, with_event, with_ticket, without_ticket};

use crate::View;
use crate::plays::{Add, Draw, Enter, GiveUp, Law, Learn, Named};
use atomic_table::{Seat, Table};
use bep_fit::{Object, Stamped};
use std::alloc::{AllocError, Global};
use std::marker::Brand;
use std::mem;
use std::sync::Wait;

/// A seat of a history. It has no bytes.
pub type Place = Seat<Stamped, View>;

/// One history of events for all who have a seat of it, and the counter that gives each event its ticket.
///
/// Which objects it is about is fixed when it begins.
#[derive(Drop)]
pub struct History {
    pub(crate) table: Table<Stamped, View, Vec<Object>, Law, Global>,
    ghost one_word: { 0 < table.shared.table_id.words },
}

impl History {
    /// A history without an event, and the seat that owns all of its objects, none of which stands twice. It fails only for
    /// want of memory.
    pub fn begin(alloc: Global, objects: &Vec<Object>) -> Result<(Self, Place), AllocError>
        requires { AreDistinct objects.now.items }
        ensures objects { IfOk result (λ made. made.0.table.shared.key.items ≡ objects.now.items) }
        ensures seat { IfOk result (λ made. (made.1.table_id ≡ made.0.table.shared.table_id) × (made.1.me ≡ (beginning objects.now.items, []))) }
    {
        let (table, seat) = Table::of_words(alloc, &[1], objects)?;
        Ok((History { table }, seat))
    }

    /// A ticket for the seat alone. It is above those of all events in the seat's rows. A ticket that the seat drew before
    /// and hasn't used is given up. It waits for ever once 2^64 - 2 tickets are drawn.
    pub fn draw<R: Wait>(&self, rt: &R, seat: &mut Place) -> u64
        requires { seat.old.table_id ≡ self.now.table.shared.table_id }
        ensures seat { (seat.new.table_id ≡ seat.old.table_id) × (seat.new.me ≡ (with_ticket result seat.old.me.0, seat.old.me.1)) }
        ensures above { (0 < result) × IsAbove result (view_of seat.old) }
    {
        let shared = &self.table.shared;
        for _ in rt.forever() {
            let next = shared.peek(0);
            if next < u64::MAX {
                let found = shared.compare_exchange::<Draw>(seat, 0, next, next + 1);
                if found == next {
                    return found;
                }
            }
        }
        unreachable!()
    }

    /// The same for two seats with a row each: the ticket is the first one's, and above those of all events in both rows.
    pub fn draw_both<R: Wait>(&self, rt: &R, seat: &mut Place, other: &mut Place) -> u64
        requires own { (seat.old.table_id ≡ self.now.table.shared.table_id) × (other.old.table_id ≡ self.now.table.shared.table_id) }
        requires free { (seat.old.me.1 ≡ []) × (other.old.me.1 ≡ []) }
        requires two { AreOfTwo (view_of seat.old) (view_of other.old) }
        ensures seat { (seat.new.table_id ≡ seat.old.table_id) × (seat.new.me ≡ (with_ticket result seat.old.me.0, [])) }
        ensures other { (other.new.table_id ≡ other.old.table_id) × (other.new.me ≡ other.old.me) }
        ensures above { (0 < result) × IsAbove result (view_of seat.old) × IsAbove result (view_of other.old) }
    {
        let its = mem::replace(other, self.fresh());
        self.join(seat, its);
        let ticket = self.draw(rt, seat);
        *other = self.split(seat);
        ticket
    }

    /// The seat's ticket is given up: no event will have it.
    pub fn give_up(&self, seat: &mut Place)
        requires { seat.old.table_id ≡ self.now.table.shared.table_id }
        ensures { (seat.new.table_id ≡ seat.old.table_id) × (seat.new.me ≡ (without_ticket seat.old.me.0, seat.old.me.1)) }
    {
        self.table.shared.load::<GiveUp>(seat, 0);
    }

    /// The event comes into the history, under the seat's ticket, and into the row of each object that it touches.
    pub fn add(&self, seat: &mut Place, event: &Stamped)
        requires own { seat.old.table_id ≡ self.now.table.shared.table_id }
        requires may { MayAdd self.now.table.shared.key.items (view_of seat.old) event.now }
        ensures { (seat.new.table_id ≡ seat.old.table_id) × (seat.new.me ≡ (with_event event.now seat.old.me.0, seat.old.me.1)) }
    {
        self.table
            .shared
            .compare_exchange_with::<Add>(seat, 0, 0, 0, event);
    }

    /// There is one history, of which each row of the seat is the object's part, and which has each event that is claimed.
    pub fn learn(&self, seat: &mut Place)
        requires { seat.old.table_id ≡ self.now.table.shared.table_id }
        ensures seat { (seat.new.table_id ≡ seat.old.table_id) × (seat.new.me ≡ seat.old.me) }
        ensures told { IsTold self.now.table.shared.key.items (view_of seat.old) }
    {
        self.learn_of::<Brand>(seat);
    }

    // The same, where the type `O` names the objects.
    fn learn_of<O: Named>(&self, seat: &mut Place)
        requires own { seat.old.table_id ≡ self.now.table.shared.table_id }
        requires objects { O.objects ≡ self.now.table.shared.key.items }
        ensures seat { (seat.new.table_id ≡ seat.old.table_id) × (seat.new.me ≡ seat.old.me) }
        ensures told { IsTold O.objects (view_of seat.old) }
    {
        self.table.shared.load::<Learn<O>>(seat, 0);
    }

    /// A seat that owns and knows nothing.
    pub fn fresh(&self) -> Place
        ensures { (result.table_id ≡ self.now.table.shared.table_id) × (result.me ≡ (nothing, [])) }
    {
        self.table.shared.load_new_seat::<Enter>(0).1
    }
}
