ghost use Rattle.std.specs.Prelude.{◌≡◌, ◌+◌, ◌≤◌, ◌↔◌, [], ◌++◌, length, IsTrue};
ghost use Rattle.std.specs.Bool.{OnFalse, OnTrue};

use crate::line::LINE_BYTES;
use std::marker::Model;

/// The front of a line that isn't whole, of at most 80 bytes. Contracts see it as its bytes.
#[derive(Drop)]
pub(crate) struct KeptLine {
    bytes: [u8; LINE_BYTES],
    length: usize,
}

impl Model for KeptLine {
    ghost use Rattle.std.specs.Prelude.{List, ℕ, ◌≤◌, take};
    ghost use Rattle.std.specs.Coded.{coded_list, coded_ℕ};

    ghost Value = { List ℕ };

    ghost coded = { coded_list coded_ℕ };

    ghost view = { λ k. take k.length k.bytes };

    ghost invariant = { λ k. k.length ≤ 80 };
}

impl KeptLine {
    pub(crate) fn new() -> KeptLine
        ensures { result ≡ [] }
    {
        KeptLine {
            bytes: [0; LINE_BYTES],
            length: 0,
        }
    }

    pub(crate) fn bytes(&self) -> &[u8]
        ensures { result.now ≡ self.now }
    {
        &self.bytes[..self.length]
    }

    /// Whether the line with this part has at most 80 bytes, and then it has it.
    pub(crate) fn extend(&mut self, part: &[u8]) -> bool
        ensures fits { IsTrue result ↔ (length self.old + length part.now ≤ 80) }
        ensures more { OnTrue result (self.new ≡ self.old ++ part.now) }
        ensures same { OnFalse result (self.new ≡ self.old) }
    {
        if part.len() > LINE_BYTES - self.length {
            return false;
        }
        let end = self.length + part.len();
        self.bytes[self.length..end].copy_from_slice(part);
        self.length = end;
        true
    }

    pub(crate) fn clear(&mut self)
        ensures { self.new ≡ [] }
    {
        self.length = 0;
    }
}
