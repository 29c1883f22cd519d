//! A shelf that gives few bytes at once, counts its calls, and fails at one of them.

ghost use Rattle.std.specs.Prelude.{◌≡◌};

use roam_edge::{Failed, Shelf};

/// A shelf of a grid `g` and of a script under every other name; it tells no content.
#[derive(Drop)]
pub(crate) struct FrailShelf<'a> {
    grid: &'a [u8],
    script: &'a [u8],
    unread: &'a [u8],
    most: usize,
    fails: u64,
    calls: u64,
    opens: u64,
    ended: bool,
    faults: u64,
    late: bool,
}

impl<'a> FrailShelf<'a> {
    /// A shelf that gives at most so many bytes at once. Its call of this number, counted from 1, fails.
    pub(crate) fn new(grid: &'a [u8], script: &'a [u8], most: usize, fails: u64) -> FrailShelf<'a>
        ensures opens { ⟦<FrailShelf<'a> as Shelf>⟧.opens result ≡ 0 }
        ensures faults { ⟦<FrailShelf<'a> as Shelf>⟧.faults result ≡ 0 }
    {
        FrailShelf {
            grid,
            script,
            unread: &[],
            most,
            fails,
            calls: 0,
            opens: 0,
            ended: true,
            faults: 0,
            late: false,
        }
    }

    /// How many calls there were.
    pub(crate) fn calls(&self) -> u64 {
        self.calls
    }
}

impl<'a> Shelf for FrailShelf<'a> {
    ghost use Rattle.std.specs.Prelude.{None};

    ghost files = { λ _. None };

    ghost rest = { λ _. None };

    ghost opens = { λ s. s.opens };

    ghost ended = { λ s. s.ended };

    ghost faults = { λ s. s.faults };

    ghost late = { λ s. s.late };

    fn open_named(&mut self, name: &str) -> Result<(), Failed> {
        self.late = self.late || self.faults > 0;
        self.opens = self.opens.saturating_add(1);
        self.calls = self.calls.saturating_add(1);
        if self.calls == self.fails {
            self.ended = true;
            self.faults = self.faults.saturating_add(1);
            return Err(Failed);
        }
        self.unread = if name == "g" { self.grid } else { self.script };
        self.ended = false;
        Ok(())
    }

    fn read(&mut self, buf: &mut [u8]) -> Result<usize, Failed> {
        self.late = self.late || self.faults > 0;
        self.calls = self.calls.saturating_add(1);
        if self.calls == self.fails {
            self.faults = self.faults.saturating_add(1);
            return Err(Failed);
        }
        let count = buf.len().min(self.unread.len()).min(self.most);
        buf[..count].copy_from_slice(&self.unread[..count]);
        self.unread = &self.unread[count..];
        self.ended = count == 0;
        Ok(count)
    }
}
