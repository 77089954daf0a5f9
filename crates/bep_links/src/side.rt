//! The two ends of a link.
ghost use Rattle.std.specs.Prelude.{◌≡◌};
ghost use Rattle.bep_links.specs.Side.{opposite_of};

/// An end of a link, by the number of the device that is there.
#[derive(Clone, Copy, Debug, PartialEq, Eq)]
pub enum Side {
    /// The end of the smaller device.
    Lower,
    /// The end of the greater device.
    Upper,
}

impl Side {
    /// The other end.
    pub fn opposite(self) -> Self
        ensures { result ≡ opposite_of self }
    {
        match self {
            Side::Lower => Side::Upper,
            Side::Upper => Side::Lower,
        }
    }
}
