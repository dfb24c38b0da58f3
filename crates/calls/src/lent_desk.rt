//! A desk over a lent text.
ghost use Rattle.std.specs.Prelude.{◌≡◌, ℕ, List, length, take, drop, min, Some, ⊤, IsOk, IfOk, OnOk};
ghost use Rattle.std.specs.Io.{ReadsAtMost};
ghost use Rattle.std.specs.Io.KnownBytes.{ReadConsumes};
ghost use Rattle.ports.specs.Causes.{HasCause};
ghost use Rattle.ports.specs.Reading.{EndsAtZero};

use ports::{Desk, Failed};
use std::marker::Model;

/// A desk that gives one lent text under each name. Its calls never fail.
#[derive(Drop)]
pub struct LentDesk<'a> {
    text: &'a [u8],
    at: usize,
}

impl<'a> Model for LentDesk<'a> {
    ghost use Rattle.std.specs.Prelude.{drop, length, ◌≤◌};
    ghost use Rattle.calls.specs.Lent.{Reader};

    ghost Value = { Reader };

    ghost view = { λ d. record { text = d.text.now; left = drop d.at d.text.now } };

    ghost invariant = { λ d. d.at ≤ length d.text.now };
}

impl<'a> LentDesk<'a> {
    /// A desk over this text, from its start.
    pub fn new(text: &'a [u8]) -> LentDesk<'a>
        ensures { result ≡ record { text = text.now; left = text.now } }
    {
        LentDesk { text, at: 0 }
    }

    // Gives what the buffer has room for.
    fn give(&mut self, buf: &mut [u8]) -> usize
        ensures count { result ≡ min (length buf.new) (length self.old.left) }
        ensures given { take result buf.new ≡ take result self.old.left }
        ensures rest { self.new ≡ record self.old { left = drop result self.old.left } }
    {
        let n = buf.len().min(self.text.len() - self.at);
        let end = self.at + n;
        buf[..n].copy_from_slice(&self.text[self.at..end]);
        self.at = end;
        n
    }
}

impl<'a> Desk for LentDesk<'a> {
    ghost use Rattle.std.specs.Prelude.{Some, ⊤};

    ghost content = { λ d _. Some d.text };

    ghost left = { λ d. Some d.left };

    ghost faults = { λ _. 0 };

    ghost steady = { λ _ _. ⊤ };

    ghost flows = { λ _. ⊤ };

    fn choose(&mut self, _name: &str) -> Result<(), Failed> {
        self.at = 0;
        Ok(())
    }

    fn read(&mut self, buf: &mut [u8]) -> Result<usize, Failed> {
        Ok(self.give(buf))
    }
}
