//! Levels of translation tables.
ghost use Rattle.std.specs.Prelude.{◌≡◌, ◌+◌, ◌<◌, ◌≤◌, ◌&&◌, nat_le, Some, None, if◌then◌else◌};

use std::marker::Model;

/// The level of a translation table, 1 to 3. RMM 1.0, RTT level.
#[derive(Clone, Copy, Debug, PartialEq, Eq)]
pub struct Level(u8);

impl Model for Level {
    ghost use Rattle.std.specs.Prelude.{ℕ, ◌≤◌};

    ghost Value = { ℕ };

    ghost view = { λ l. l.0 };

    ghost invariant = { λ l. (1 ≤ l.0) × (l.0 ≤ 3) };

    ghost inverse = { λ n. record { 0 = n } };
}

impl Level {
    pub fn new(level: u8) -> Option<Level>
        ensures { result ≡ (if nat_le 1 level && nat_le level 3 then Some level else None) }
    {
        if 1 <= level && level <= 3 {
            Some(Level(level))
        } else {
            None
        }
    }

    /// Returns the level at which an RTT walk starts.
    pub fn start() -> Level
        ensures { result ≡ 1 }
    {
        Level(1)
    }

    /// Returns level 3, whose entries cover one IPA granule each.
    pub fn last() -> Level
        ensures { result ≡ 3 }
    {
        Level(3)
    }

    /// Returns the next level in an RTT walk, which is one greater. Entries of this level lead to tables of that level.
    pub fn below(self) -> Level
        requires { self < 3 }
        ensures { result ≡ self + 1 }
    {
        Level(self.0 + 1)
    }

    /// Returns the previous level in an RTT walk, which is one less. Entries of that level lead to tables of this
    /// level.
    pub fn above(self) -> Level
        requires { 1 < self }
        ensures { result + 1 ≡ self }
    {
        Level(self.0 - 1)
    }

    pub fn number(self) -> u8
        ensures value { result ≡ self }
        ensures at_least { 1 ≤ result }
        ensures at_most { result ≤ 3 }
    {
        self.0
    }
}
