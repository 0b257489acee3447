//! A sign that one thread waits for and another gives.

use std::rt::Clock;
use std::sync::atomic::{AtomicBool, Ordering};
use std::thread;
use std::time::Duration;

/// How many times a thread that waits looks for the sign, a millisecond apart.
const TURNS: u64 = 10_000;

/// What one thread waits for and another gives.
#[derive(Drop)]
pub struct Sign<'a, R: Clock> {
    clock: &'a R,
    given: AtomicBool,
    is_late: AtomicBool,
}

impl<'a, R: Clock> Sign<'a, R> {
    /// Returns a sign that is not given yet.
    pub fn new(clock: &'a R) -> Sign<'a, R> {
        Sign {
            clock,
            given: AtomicBool::new(false),
            is_late: AtomicBool::new(false),
        }
    }

    pub fn give(&self) {
        self.given.store(true, Ordering::SeqCst);
    }

    /// Waits until the sign is given, or for ten thousand turns.
    pub fn wait(&self) {
        for _ in 0..TURNS {
            if self.given.load(Ordering::SeqCst) {
                return;
            }
            thread::sleep(self.clock, Duration::from_millis(1));
        }
        self.is_late.store(true, Ordering::SeqCst);
    }

    /// Returns whether the sign is given, and each that waited has seen it.
    pub fn came(&self) -> bool {
        self.given.load(Ordering::SeqCst) && !self.is_late.load(Ordering::SeqCst)
    }
}
