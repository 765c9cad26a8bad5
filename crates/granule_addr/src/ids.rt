//! Types for the number of a build, the number of a REC, and the VMID of a realm.
ghost use Rattle.std.specs.Prelude.{◌≡◌, ◌<◌, ◌≤◌, nat_lt, nat_le, Some, None, if◌then◌else◌};

use std::marker::Model;

/// The number of a build, 0 to 7.
#[derive(Clone, Copy, Debug, PartialEq, Eq, PartialOrd, Ord)]
pub struct BuildId(u8);

impl Model for BuildId {
    ghost use Rattle.std.specs.Prelude.{ℕ, ◌<◌};

    ghost Value = { ℕ };

    ghost view = { λ b. b.0 };

    ghost invariant = { λ b. b.0 < 8 };

    ghost inverse = { λ n. record { 0 = n } };
}

impl BuildId {
    pub fn new(build: u8) -> Option<BuildId>
        ensures { result ≡ (if nat_lt build 8 then Some build else None) }
    {
        if build < 8 {
            Some(BuildId(build))
        } else {
            None
        }
    }

    /// Returns the build with a given index in a plan. A plan counts its builds from 0.
    pub fn at(place: usize) -> BuildId
        requires { place < 8 }
        ensures { result ≡ place }
    {
        BuildId(place as u8)
    }

    pub fn number(self) -> u8
        ensures value { result ≡ self }
        ensures below { result < 8 }
    {
        self.0
    }
}

/// The VMID of a realm, 1 to 255. RMM 1.0, Realm attributes.
#[derive(Clone, Copy, Debug, PartialEq, Eq)]
pub struct Vmid(u8);

impl Model for Vmid {
    ghost use Rattle.std.specs.Prelude.{ℕ, ◌≤◌};

    ghost Value = { ℕ };

    ghost view = { λ v. v.0 };

    ghost invariant = { λ v. 1 ≤ v.0 };

    ghost inverse = { λ n. record { 0 = n } };
}

impl Vmid {
    pub fn new(vmid: u8) -> Option<Vmid>
        ensures { result ≡ (if nat_le 1 vmid then Some vmid else None) }
    {
        if vmid >= 1 { Some(Vmid(vmid)) } else { None }
    }

    pub fn number(self) -> u8
        ensures value { result ≡ self }
        ensures at_least { 1 ≤ result }
    {
        self.0
    }
}

/// The number of a REC in its realm. RMM 1.0, REC index.
#[derive(Clone, Copy, Debug, PartialEq, Eq)]
pub struct RecNo(u16);

impl Model for RecNo {
    ghost use Rattle.std.specs.Prelude.{ℕ};

    ghost Value = { ℕ };

    ghost view = { λ r. r.0 };

    ghost inverse = { λ n. record { 0 = n } };
}

impl RecNo {
    pub fn new(number: u16) -> RecNo
        ensures { result ≡ number }
    {
        RecNo(number)
    }

    pub fn number(self) -> u16
        ensures { result ≡ self }
    {
        self.0
    }
}
