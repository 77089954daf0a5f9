//! A seat of a history that a type names: so a lock keeps it, with what it guards.
ghost use Rattle.std.specs.Prelude.{◌≡◌, ◌<◌, [], IfSome, None, Some, option_map};
ghost use Rattle.std.specs.Option.{option_copied};
ghost use Rattle.atomic_table.specs.Seated.{TableId};
ghost use Rattle.bep_history.specs.Chair.{AreTwo, IsNamed, MayTell, MayTellBoth, joined_with};
ghost use Rattle.bep_history.specs.View.{IsAbove, first_row, other_rows, told, view_of, with_ticket};

use crate::history::{History, Place};
use bep_fit::Stamped;
use std::marker::{Brand, Model, PhantomData};
use std::sync::Wait;

/// A history's table, as a name in clauses. No value of it is needed.
pub trait Tabled {
    ghost use Rattle.std.specs.Prelude.{Option};
    ghost use Rattle.atomic_table.specs.Seated.{TableId};

    /// The table; None where there is no history.
    ghost table: { Option TableId };
}

// A call with it picks the table.
impl Tabled for Brand {
    ghost table = { None };
}

/// A seat of the history whose table `T` names, or none where it names none. Contracts see what the seat owns and knows.
pub struct Chair<T: Tabled> {
    place: Option<Place>,
    of: PhantomData<T>,
}

// By hand: a caller's proof then sees one call where it lets go of one, and not each field (docs/developing.md).
impl<T: Tabled> Drop for Chair<T> {
    fn drop(self) {
        let Chair { place: _, of: _ } = self;
    }
}

impl<T: Tabled> Model for Chair<T> {
    ghost use Rattle.std.specs.Prelude.{Option, option_map};
    ghost use Rattle.bep_history.specs.declared.view.View.{View};
    ghost use Rattle.bep_history.specs.Chair.{IsSeatOf};
    ghost use Rattle.bep_history.specs.View.{view_of};

    ghost Value = { Option View };

    ghost view = { λ inside. option_map view_of inside.place };

    ghost invariant = { λ inside. IsSeatOf T.table inside.place };
}

impl<T: Tabled> Chair<T> {
    /// The seat, which is of the table that is named.
    pub fn of(place: Place) -> Self
        requires { (T.table ≡ Some place.table_id) × (place.me.1 ≡ []) }
        ensures { result ≡ Some (view_of place) }
    {
        Chair {
            place: Some(place),
            of: PhantomData,
        }
    }

    /// No seat, where no table is named.
    pub fn nobody() -> Self
        requires { T.table ≡ None }
        ensures { result ≡ None }
    {
        Chair {
            place: None,
            of: PhantomData,
        }
    }

    /// A ticket for the seat alone, as `History::draw` gives it. Where there is no seat, it is for nobody. May wait.
    pub fn draw<R: Wait>(&mut self, rt: &R, history: &History) -> u64
        requires { IsNamed T.table history.now.table.shared.table_id }
        ensures seat { self.new ≡ option_map (with_ticket result) self.old }
        ensures above { (0 < result) × IfSome self.old (IsAbove result) }
    {
        match &mut self.place {
            Some(place) => history.draw(rt, place),
            None => history.draw(rt, &mut history.fresh()),
        }
    }

    /// The same for two seats with a row each: the ticket is the first one's, and above those of all events in both rows.
    pub fn draw_both<R: Wait>(&mut self, rt: &R, history: &History, other: &mut Chair<T>) -> u64
        requires named { IsNamed T.table history.now.table.shared.table_id }
        requires two { AreTwo self.old other.old }
        ensures seat { self.new ≡ option_map (with_ticket result) self.old }
        ensures other { other.new ≡ other.old }
        ensures above { (0 < result) × IfSome self.old (IsAbove result) × IfSome other.old (IsAbove result) }
    {
        match (&mut self.place, &mut other.place) {
            (Some(place), Some(its)) => history.draw_both(rt, place, its),
            _ => history.draw(rt, &mut history.fresh()),
        }
    }

    /// The event comes into the history under the seat's ticket, if there is one; else the ticket is given up. Where there is
    /// no seat, nothing is told.
    pub fn tell(&mut self, history: &History, event: Option<&Stamped>)
        requires named { IsNamed T.table history.now.table.shared.table_id }
        requires may { MayTell self.old (option_copied event) }
        ensures { self.new ≡ option_map (told (option_copied event.entry)) self.old }
    {
        if let Some(place) = &mut self.place {
            history.tell(place, event);
        }
    }

    /// The same of an event that may touch the objects of two seats, under the first one's ticket.
    pub fn tell_both(&mut self, history: &History, other: &mut Chair<T>, event: Option<&Stamped>)
        requires named { IsNamed T.table history.now.table.shared.table_id }
        requires may { MayTellBoth self.old other.old (option_copied event) }
        ensures seat { self.new ≡ option_map (told (option_copied event.entry)) self.old }
        ensures other { other.new ≡ option_map (told (option_copied event.entry)) other.old }
    {
        if let (Some(place), Some(its)) = (&mut self.place, &mut other.place) {
            history.tell_both(place, its, event);
        }
    }

    /// The seat's first row, as a seat of its own.
    pub fn split(&mut self, history: &History) -> Chair<T>
        requires { IsNamed T.table history.now.table.shared.table_id }
        ensures seat { self.new ≡ option_map other_rows self.old }
        ensures first { result ≡ option_map first_row self.old }
    {
        let place = match &mut self.place {
            Some(place) => Some(history.split(place)),
            None => None,
        };
        Chair {
            place,
            of: PhantomData,
        }
    }

    /// What the seat owns and knows goes to another one of the history.
    pub fn give(self, history: &History, whole: &mut Place)
        requires named { IsNamed T.table history.now.table.shared.table_id }
        requires own { whole.old.table_id ≡ history.now.table.shared.table_id }
        ensures { (whole.new.table_id ≡ whole.old.table_id) × (whole.new.me ≡ (joined_with self whole.old.me.0, whole.old.me.1)) }
    {
        let Chair { place, of: _ } = self;
        if let Some(place) = place {
            history.join(whole, place);
        }
    }
}
