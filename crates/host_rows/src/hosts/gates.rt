//! A gate at which some are held until others have come there.

use crate::hosts::numbers::number;
use host_run::gate::Gate;
use std::sync::atomic::{AtomicBool, AtomicU64, Ordering};
use std::thread;
use std::time::{Clock, Duration};

/// How often whoever is held looks, at most.
const LOOKS: u32 = 10_000;

/// How many microseconds the processor is given away at each look.
const PAUSE: u64 = 100;

/// The number of a fabric with that of a turn there; or the number of fabrics with that of an order.
#[derive(Clone, Copy, Debug, PartialEq, Eq, Drop)]
struct Point {
    /// The fabric, or how many there are.
    fabric: u32,
    /// The turn, or the order.
    turn: u64,
}

/// Whoever comes to a point is held until another point was come to.
#[derive(Drop)]
pub struct Hold {
    /// Where it is held.
    at: Point,
    /// What it waits for.
    until: Point,
    /// That was come to.
    come: AtomicBool,
}

impl Hold {
    /// A hold by the four numbers of a line: the point, and what is waited for.
    pub fn of(line: &str) -> Hold {
        let mut words = line.split(' ');
        let at = Point {
            fabric: number(words.next()),
            turn: u64::from(number(words.next())),
        };
        let until = Point {
            fabric: number(words.next()),
            turn: u64::from(number(words.next())),
        };
        Hold {
            at,
            until,
            come: AtomicBool::new(false),
        }
    }

    /// Takes note of who comes to a point.
    fn note(&self, here: Point) {
        if self.until == here {
            self.come.store(true, Ordering::SeqCst);
        }
    }

    /// Waits for what is waited for. False where it doesn't come in so many looks.
    fn wait(&self, clock: &impl Clock) -> bool {
        for _ in 0..LOOKS {
            if self.come.load(Ordering::SeqCst) {
                return true;
            }
            thread::sleep(clock, Duration::from_micros(PAUSE));
        }
        false
    }
}

/// A gate with holds. A point counts as come to before whoever comes is held there.
#[derive(Drop)]
pub struct RowGate<'a, R: Clock> {
    /// What tells the time.
    clock: &'a R,
    /// The holds.
    holds: &'a [Hold],
    /// How many were held too long.
    failures: AtomicU64,
}

impl<'a, R: Clock> RowGate<'a, R> {
    /// A gate with these holds.
    pub fn new(clock: &'a R, holds: &'a [Hold]) -> RowGate<'a, R> {
        RowGate {
            clock,
            holds,
            failures: AtomicU64::new(0),
        }
    }

    /// How many were held too long.
    pub fn failures(&self) -> u64 {
        self.failures.load(Ordering::SeqCst)
    }
}

impl<R: Clock> Gate for RowGate<'_, R> {
    fn pass(&self, fabric: u32, turn: u64) {
        let here = Point { fabric, turn };
        for hold in self.holds {
            hold.note(here);
        }
        for hold in self.holds {
            if hold.at == here && !hold.wait(self.clock) {
                self.failures.fetch_add(1, Ordering::SeqCst);
            }
        }
    }
}
