//! What a seat of the history knows. No value of these types is ever made.
use bep_fit::{Object, Stamped};
use std::collections::LinkedList;

/// An object, and the events of the history that touch it.
pub struct Row {
    /// The object.
    pub object: Object,
    /// The events, in the history's order.
    pub events: LinkedList<Stamped>,
}

/// What a seat owns and knows.
pub struct View {
    /// The objects that it alone may add events to, each with its part of the history.
    pub rows: LinkedList<Row>,
    /// The ticket that it drew and hasn't used.
    pub drawn: LinkedList<u64>,
    /// Events of the history.
    pub claims: LinkedList<Stamped>,
}
