//! A hold in memory.

use crate::hold::{Hold, Point};
use std::sync::atomic::{AtomicU64, Ordering};

/// The most turns for which a session is kept.
const TURN_LIMIT: u64 = 1_000_000_000;

/// A stated wait: at one point, until another was reached so many times.
#[derive(Clone, Copy, Debug)]
pub struct Pause {
    /// Where sessions are kept.
    pub at: Point,
    /// The point that they wait for.
    pub until: Point,
    /// How many times it is to be reached.
    pub times: u64,
}

/// Counts the points that are reached, and keeps each session at the point of its pause, for 1,000,000,000 turns of one load
/// at most. Threads may share it. Nothing is known of an atomic, so that its calls promise nothing.
#[derive(Drop)]
pub struct MemoryHold {
    payloads: AtomicU64,
    leases: AtomicU64,
    spent: AtomicU64,
    pause: Option<Pause>,
}

impl MemoryHold {
    /// No point was reached.
    pub fn new(pause: Option<Pause>) -> MemoryHold {
        MemoryHold {
            payloads: AtomicU64::new(0),
            leases: AtomicU64::new(0),
            spent: AtomicU64::new(0),
            pause,
        }
    }

    fn counter(&self, point: Point) -> &AtomicU64 {
        match point {
            Point::PayloadRead => &self.payloads,
            Point::LeaseAnswered => &self.leases,
        }
    }

    /// How many times the point was reached.
    pub fn count(&self, point: Point) -> u64 {
        self.counter(point).load(Ordering::SeqCst)
    }

    /// How many times the turns of a pause ran out. A test in which they did fails.
    pub fn spent(&self) -> u64 {
        self.spent.load(Ordering::SeqCst)
    }

    /// Waits until the point of the pause was reached often enough, or the turns run out.
    fn wait(&self, pause: &Pause) {
        for _ in 0..TURN_LIMIT {
            if self.count(pause.until) >= pause.times {
                return;
            }
        }
        self.spent.fetch_add(1, Ordering::SeqCst);
    }
}

impl Hold for MemoryHold {
    fn at(&self, point: Point) {
        self.counter(point).fetch_add(1, Ordering::SeqCst);
        match &self.pause {
            Some(pause) if pause.at == point => self.wait(pause),
            _ => {}
        }
    }
}
