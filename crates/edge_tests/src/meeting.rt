//! A gate that shows whether two jobs are under way at once.

use rq_fan::Gate;
use std::sync::atomic::{AtomicBool, Ordering};

/// How often a job looks for the other before it gives up.
const MOST_LOOKS: u32 = 100_000_000;

/// A gate at which the first jobs at the places 0 and 1 look for each other, and which marks the first four that come to place 0.
#[derive(Drop)]
pub(crate) struct Meeting {
    first: AtomicBool,
    second: AtomicBool,
    met: [AtomicBool; 2],
    came: [AtomicBool; 4],
}

impl Meeting {
    pub(crate) fn new() -> Meeting {
        Meeting {
            first: AtomicBool::new(false),
            second: AtomicBool::new(false),
            met: [AtomicBool::new(false), AtomicBool::new(false)],
            came: [
                AtomicBool::new(false),
                AtomicBool::new(false),
                AtomicBool::new(false),
                AtomicBool::new(false),
            ],
        }
    }

    /// Both saw each other.
    pub(crate) fn took_place(&self) -> bool {
        self.met[0].load(Ordering::SeqCst) && self.met[1].load(Ordering::SeqCst)
    }

    /// Three jobs came to place 0, and no fourth one.
    pub(crate) fn saw_three(&self) -> bool {
        self.came[2].load(Ordering::SeqCst) && !self.came[3].load(Ordering::SeqCst)
    }
}

/// Tells that the first job of a place is under way, and notes whether it sees that the other one is.
fn meet(mine: &AtomicBool, other: &AtomicBool, met: &AtomicBool) {
    if mine.swap(true, Ordering::SeqCst) {
        return;
    }
    for _ in 0..MOST_LOOKS {
        if other.load(Ordering::SeqCst) {
            met.store(true, Ordering::SeqCst);
            return;
        }
    }
}

/// Sets the first mark that isn't set yet.
fn mark_next(marks: &[AtomicBool]) {
    for mark in marks {
        if !mark.swap(true, Ordering::SeqCst) {
            return;
        }
    }
}

impl Gate for Meeting {
    fn enter(&self, place: u32) {
        if place == 0 {
            mark_next(&self.came);
            meet(&self.first, &self.second, &self.met[0]);
        }
        if place == 1 {
            meet(&self.second, &self.first, &self.met[1]);
        }
    }
}
