//! The codes of errors.
ghost use Rattle.std.specs.Prelude.{◌≡◌};
ghost use Rattle.nd_time.specs.Code.{coded};

use std::marker::Model;

/// The number and the name by which a reply reports an error.
#[derive(Drop)]
pub struct Code {
    number: u64,
    name: &'static str,
}

impl Model for Code {
    ghost use Rattle.nd_time.specs.Code.{Code as Coded};

    ghost Value = { Coded };

    ghost view = { λ c. record { number = c.number; name = c.name.now } };
}

impl Code {
    /// Returns the code with this number and this name.
    pub fn new(number: u64, name: &'static str) -> Code
        ensures { result ≡ coded number name.now }
    {
        Code { number, name }
    }

    /// Returns the number.
    pub fn number(&self) -> u64
        ensures { result ≡ self.now.number }
    {
        self.number
    }

    /// Returns the name.
    pub fn name(&self) -> &'static str
        ensures { result.now ≡ self.now.name }
    {
        self.name
    }
}
