//! How long a wait may go on.
ghost use Rattle.std.specs.Prelude.{◌≤◌};
ghost use Rattle.std.specs.Duration.{as_nanos};

use std::time::{Clock, Duration, Instant};

/// Says how much longer a call waits for what hasn't come.
pub(crate) trait Patience {
    ghost use Rattle.std.specs.Prelude.{◌≡◌};
    ghost use Rattle.std.specs.Duration.{as_nanos};

    /// That it is at its end.
    ghost over: { Type 0 };

    /// How much longer it is: zero if it is at its end.
    fn left(&self) -> Duration
        ensures { as_nanos result ≡ 0 → over };
}

// When a wait began, by a clock, and how long it may be. There is no begin if the clock couldn't be read.
#[derive(Drop)]
pub(crate) struct Deadline<'a, C> {
    clock: &'a C,
    start: Option<Instant>,
    limit: Duration,
}

impl<'a, C: Clock> Deadline<'a, C> {
    // A wait that begins now.
    pub(crate) fn new(clock: &'a C, limit: Duration) -> Deadline<'a, C> {
        Deadline {
            clock,
            start: Instant::now(clock).ok(),
            limit,
        }
    }

    // How long it is to the end, and never longer than the limit. A clock that can't be read ends the wait.
    fn time_left(&self) -> Duration
        ensures most { as_nanos result ≤ as_nanos self.now.limit }
    {
        let Some(start) = self.start else {
            return Duration::ZERO;
        };
        match start.elapsed(self.clock) {
            Ok(spent) => self.limit.saturating_sub(spent),
            Err(_) => Duration::ZERO,
        }
    }
}

impl<'a, C: Clock> Patience for Deadline<'a, C> {
    ghost over = { Unit {0} };

    fn left(&self) -> Duration {
        self.time_left()
    }
}
