//! The numbers of volumes and blocks, each a type of its own, so that none is taken for another.
ghost use Rattle.std.specs.Prelude.{◌≡◌, ◌<◌, ◌≤◌, ◌↔◌, IsOk, IfOk, IfErr};
ghost use Rattle.tp_model.specs.Geometry.{metadata_sector};

use crate::refusal::Refusal;
use std::marker::Model;

/// The id of a volume, of 24 bits: 0 to 16777215.
#[derive(Clone, Copy, Debug, PartialEq, Eq, PartialOrd, Ord)]
pub struct DevId {
    number: u32,
}

impl Model for DevId {
    ghost use Rattle.std.specs.Prelude.{ℕ, ◌<◌};

    ghost Value = { ℕ };

    ghost view = { λ x. x.number };

    ghost invariant = { λ x. x.number < 16777216 };

    ghost inverse = { λ n. record { number = n } };
}

impl DevId {
    /// The id of this number, or `BadDeviceId` exactly where it is 16777216 or more.
    pub fn checked(number: u64) -> Result<DevId, Refusal>
        ensures ok { IfOk result (λ id. id ≡ number) }
        ensures limits { IsOk result ↔ (number < 16777216) }
        ensures refused { IfErr result (λ e. e ≡ Refusal.BadDeviceId) }
    {
        if number < 16_777_216 {
            Ok(DevId::new(number as u32))
        } else {
            Err(Refusal::BadDeviceId)
        }
    }

    pub fn new(number: u32) -> DevId
        requires { number < 16777216 }
        ensures { result ≡ number }
    {
        DevId { number }
    }

    pub fn number(self) -> u32
        ensures value { result ≡ self }
        ensures below { self < 16777216 }
    {
        self.number
    }
}

/// A virtual block: a block of a volume, by its place in it.
#[derive(Clone, Copy, Debug, PartialEq, Eq, PartialOrd, Ord, Default)]
pub struct Vb {
    number: u32,
}

impl Model for Vb {
    ghost use Rattle.std.specs.Prelude.{ℕ, ◌<◌};

    ghost Value = { ℕ };

    ghost view = { λ x. x.number };

    ghost invariant = { λ x. x.number < 16777216 };

    ghost inverse = { λ n. record { number = n } };
}

impl Vb {
    pub fn new(number: u32) -> Vb
        requires { number < 16777216 }
        ensures { result ≡ number }
    {
        Vb { number }
    }

    pub fn number(self) -> u32
        ensures value { result ≡ self }
        ensures below { self < 16777216 }
    {
        self.number
    }
}

/// A data block, by its place in the pool's data part.
#[derive(Clone, Copy, Debug, PartialEq, Eq, PartialOrd, Ord)]
pub struct Pb {
    number: u32,
}

impl Model for Pb {
    ghost use Rattle.std.specs.Prelude.{ℕ, ◌<◌};

    ghost Value = { ℕ };

    ghost view = { λ x. x.number };

    ghost invariant = { λ x. x.number < 1048576 };

    ghost inverse = { λ n. record { number = n } };
}

impl Pb {
    pub fn new(number: u32) -> Pb
        requires { number < 1048576 }
        ensures { result ≡ number }
    {
        Pb { number }
    }

    pub fn number(self) -> u32
        ensures value { result ≡ self }
        ensures below { self < 1048576 }
    {
        self.number
    }
}

/// A metadata block of 4096 bytes, by its place on the disk.
#[derive(Clone, Copy, Debug, PartialEq, Eq, PartialOrd, Ord)]
pub struct Mb {
    number: u32,
}

impl Model for Mb {
    ghost use Rattle.std.specs.Prelude.{ℕ, ◌<◌};

    ghost Value = { ℕ };

    ghost view = { λ x. x.number };

    ghost invariant = { λ x. x.number < 65536 };

    ghost inverse = { λ n. record { number = n } };
}

impl Mb {
    pub fn new(number: u32) -> Mb
        requires { number < 65536 }
        ensures { result ≡ number }
    {
        Mb { number }
    }

    pub fn number(self) -> u32
        ensures value { result ≡ self }
        ensures below { self < 65536 }
    {
        self.number
    }

    /// The first of its 8 sectors.
    pub fn first_sector(self) -> u64
        ensures { result ≡ metadata_sector self }
    {
        8 * self.number as u64
    }
}
