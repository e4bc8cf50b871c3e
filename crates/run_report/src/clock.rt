use std::time::{Clock, Duration, Instant};

/// The start of a run, or None if the clock failed.
#[derive(Clone, Copy)]
pub struct StartTime {
    instant: Option<Instant>,
}

impl StartTime {
    pub fn now<C: Clock>(clock: &C) -> StartTime {
        StartTime {
            instant: Instant::now(clock).ok(),
        }
    }

    /// Returns the time since the start, or None if the clock failed.
    pub fn elapsed<C: Clock>(self, clock: &C) -> Option<Duration> {
        self.instant?.elapsed(clock).ok()
    }
}

/// A timer that is due at most once in each second after the first.
#[derive(Drop)]
pub struct EachSecond<C> {
    clock: C,
    start: StartTime,
    // The number of seconds since the start when the timer was last due.
    seconds: u64,
}

impl<C: Clock> EachSecond<C> {
    pub fn new(clock: C, start: StartTime) -> EachSecond<C> {
        EachSecond {
            clock,
            start,
            seconds: 0,
        }
    }

    /// Whether the timer is due. It is then not due again in the same second.
    pub fn is_due(&mut self) -> bool {
        let Some(elapsed) = self.start.elapsed(&self.clock) else {
            return false;
        };
        let seconds = elapsed.as_secs();
        if seconds <= self.seconds {
            return false;
        }
        self.seconds = seconds;
        true
    }

    /// Whether the timer was ever due.
    pub fn was_due(&self) -> bool {
        self.seconds > 0
    }
}
