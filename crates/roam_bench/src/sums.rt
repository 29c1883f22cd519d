//! What the parts of a flight took.

/// What calls took, all together.
#[derive(Clone, Copy)]
pub struct Sum {
    /// How many there were.
    pub count: u32,
    /// The seconds.
    pub seconds: f64,
    /// Of frames, how often a priority was evaluated; of patches, how many places were written.
    pub calls: u64,
    /// Of frames, how many triangles were split or merged; of patches, how many triangles went or came.
    pub found: u64,
}

impl Sum {
    /// No call.
    pub fn none() -> Sum {
        Sum {
            count: 0,
            seconds: 0.0,
            calls: 0,
            found: 0,
        }
    }

    /// These calls and those.
    pub fn and(self, more: Sum) -> Sum {
        Sum {
            count: self.count.saturating_add(more.count),
            seconds: self.seconds + more.seconds,
            calls: self.calls.saturating_add(more.calls),
            found: self.found.saturating_add(more.found),
        }
    }
}

/// What a flight took.
#[derive(Clone, Copy)]
pub struct Flown {
    /// The seconds for the engine: wedges, pool, queues, lists.
    pub tables: f64,
    /// The first frame.
    pub first: Sum,
    /// The frames behind it, all together.
    pub later: Sum,
    /// What was done before or behind each of these.
    pub beside: Sum,
}

impl Flown {
    /// No frame.
    pub fn none(tables: f64) -> Flown {
        Flown {
            tables,
            first: Sum::none(),
            later: Sum::none(),
            beside: Sum::none(),
        }
    }

    /// With a frame more, the first one at 0, and what was done beside it.
    pub fn and(self, k: u32, frame: Sum, beside: Sum) -> Flown {
        if k == 0 {
            return Flown {
                first: frame,
                ..self
            };
        }
        Flown {
            later: self.later.and(frame),
            beside: self.beside.and(beside),
            ..self
        }
    }
}
