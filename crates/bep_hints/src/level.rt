//! What is open at a place of a JSON text, and what its part of a tree takes.
ghost use Rattle.std.specs.Prelude.{◌≤◌};

/// How deep arrays and objects may nest.
pub(crate) const MAX_DEPTH: usize = 127;

/// What holds values.
#[derive(Clone, Copy, PartialEq, Eq)]
pub(crate) enum Holder {
    /// The text itself, which has one.
    Text,
    List,
    Object,
}

/// What is open, and how many values it has so far.
#[derive(Drop)]
pub(crate) struct Level {
    pub(crate) holder: Holder,
    pub(crate) count: usize,
}

// The bytes of a value in a tree; with its key; and of what the C library adds to each piece of memory.
const VALUE: usize = 32;

const MEMBER: usize = 48;

const PIECE: usize = 16;

impl Level {
    /// Nothing is in it yet.
    pub(crate) fn new(holder: Holder) -> Self {
        Level { holder, count: 0 }
    }

    /// One more value stands in it. How many bytes its tree grows by.
    pub(crate) fn add(&mut self) -> usize {
        let (count, each) = (self.count, self.each());
        self.count = count.saturating_add(1);
        // a list has room for four at first, and then for twice as many
        match count {
            _ if self.holder == Holder::Text => 0,
            0 => each * 4 + PIECE,
            4.. if count.is_power_of_two() => each.saturating_mul(count),
            _ => 0,
        }
    }

    fn each(&self) -> usize
        ensures { result ≤ 48 }
    {
        match self.holder {
            Holder::Object => MEMBER,
            _ => VALUE,
        }
    }
}
