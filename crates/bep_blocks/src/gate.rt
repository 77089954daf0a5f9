//! Where a call that works in threads lets its caller stop it for a while.

use bep_record::DeviceId;

/// A place that a thread comes to.
#[derive(Clone, Copy, Debug, PartialEq, Eq)]
pub enum Place {
    /// The worker of this number, from 0, is about to hash its blocks.
    Piece(u32),
    /// This device's scanner has hashed what it found at a name, and is about to record it.
    Hashed(DeviceId),
    /// A message was delivered at this device, and no lock is held any more.
    Delivered(DeviceId),
    /// So many guards are held for a cut, and the next one isn't taken yet.
    Guarded(u32),
}

/// What a thread passes at each place that it comes to, as tests do that hold threads until others have come.
///
/// `pass` returns once the thread may go on. Nothing rests on what it does.
pub trait Gate {
    /// Called by a thread at this place.
    fn pass(&self, place: Place);
}

/// The gate that stops nobody.
#[derive(Clone, Copy, Debug)]
pub struct OpenGate;

impl Gate for OpenGate {
    fn pass(&self, _place: Place) {}
}
