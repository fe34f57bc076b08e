ghost use Rattle.std.specs.Prelude.{◌≡◌, IfOk, IsTrue};
ghost use Rattle.station.specs.Named.{is_name};

use std::alloc::{AllocError, Global};
use std::marker::Model;

/// A declared name: 1 to 24 of the bytes `A-Z a-z 0-9 _ . -`. Contracts see it as its bytes.
#[derive(Drop)]
pub struct Name {
    text: Vec<u8>,
}

impl Model for Name {
    ghost use Rattle.std.specs.Prelude.{List, ℕ, IsTrue};
    ghost use Rattle.station.specs.Named.{is_name};

    ghost Value = { List ℕ };

    ghost view = { λ n. n.text.items };

    ghost invariant = { λ n. IsTrue (is_name n.text.items) };
}

impl Name {
    /// The name of these bytes. The error is want of memory.
    pub fn new(alloc: Global, bytes: &[u8]) -> Result<Name, AllocError>
        requires { IsTrue (is_name bytes.now) }
        ensures { IfOk result (λ n. n ≡ bytes.now) }
    {
        let text = Vec::from_slice(alloc, bytes)?;
        Ok(Name { text })
    }

    /// Its bytes, 1 to 24 of those that names have.
    pub fn bytes(&self) -> &[u8]
        ensures value { result.now ≡ self.now }
        ensures name { IsTrue (is_name self.now) }
    {
        self.text.as_slice()
    }
}
