//! Devices, by their short ids.
ghost use Rattle.std.specs.Prelude.{◌≡◌, ℕ, ◌<◌, ◌≤◌, ◌^◌, SomeIff};

use std::marker::Model;

/// A device's short id, the 64-bit number by which version vectors and views name it. Never 0.
///
/// BEP v1, 'Vector' and 'Device IDs'; here the short id alone stands for the device.
#[derive(Clone, Copy, Debug, PartialEq, Eq, PartialOrd, Ord, Hash)]
pub struct DeviceId {
    number: u64,
}

impl Model for DeviceId {
    ghost Value = { ℕ };

    ghost view = { λ id. id.number };

    ghost invariant = { λ id. 1 ≤ id.number };

    ghost inverse = { λ number. record { number = number } };
}

impl DeviceId {
    /// The device with this number, `None` for 0.
    pub fn read(number: u64) -> Option<Self>
        ensures { SomeIff result (1 ≤ number) number }
    {
        if number == 0 {
            return None;
        }
        Some(DeviceId { number })
    }

    /// The device's number, 1 or more.
    pub fn number(self) -> u64
        ensures value { result ≡ self }
        ensures positive { 1 ≤ self }
    {
        self.number
    }
}
