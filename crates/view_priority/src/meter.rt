//! How often priorities were evaluated.

ghost use Rattle.std.specs.Prelude.{◌≡◌};
ghost use Rattle.view_priority.specs.Meter.{counted};

use std::marker::Model;

/// How often priorities were evaluated. At 2^64 - 1 the count stands still.
#[derive(Debug, Drop)]
pub struct Meter {
    count: u64,
}

impl Model for Meter {
    ghost use Rattle.std.specs.Prelude.{ℕ};

    ghost Value = { ℕ };

    ghost view = { λ m. m.count };
}

impl Meter {
    /// A meter that has counted nothing.
    pub fn new() -> Self
        ensures { result ≡ 0 }
    {
        Meter { count: 0 }
    }

    /// The count.
    pub fn count(&self) -> u64
        ensures { result ≡ self.now }
    {
        self.count
    }

    /// Counts one more.
    pub fn tick(&mut self)
        ensures { self.new ≡ counted self.old }
    {
        self.count = self.count.saturating_add(1);
    }
}
