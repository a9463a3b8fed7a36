//! Jobs at once: their answers stand in their order, and two of them are under way together.
ghost use Rattle.std.specs.Prelude.{⊤};

use crate::helpers::push;
use crate::meeting::Meeting;
use rq_fan::{Gate, Work, run_jobs};
use std::alloc::Global;
use std::process::Abort;
use std::thread::Threads;

/// A job that squares a number.
#[derive(Drop)]
struct Square {
    number: u32,
}

impl Work for Square {
    type Answer = u64;

    ghost answers = { λ job answer. ⊤ };

    fn work(self) -> u64 {
        u64::from(self.number) * u64::from(self.number)
    }
}

fn squares<R: Abort + Threads + Sync>(rt: &R, alloc: Global, numbers: &[u32]) -> Vec<u64> {
    let mut jobs = Vec::new(alloc);
    for number in numbers {
        push(rt, &mut jobs, Square { number: *number });
    }
    run_jobs(rt, alloc, jobs).expect(rt, "memory")
}

static NUMBERS: [u32; 3] = [2, 3, 4];

static SQUARES: [u64; 3] = [4, 9, 16];

#[test]
fn three_squares(rt: HostRuntime) {
    let squares = squares(&rt, rt.alloc(), &NUMBERS);
    assert!(rt; squares.as_slice() == SQUARES.as_slice());
}

/// More than twice as many jobs as there are parts of a list that is halved six times.
#[test]
fn many_squares_in_order(rt: HostRuntime) {
    let mut numbers = Vec::new(rt.alloc());
    for number in 0..150 {
        push(&rt, &mut numbers, number);
    }
    let squares = squares(&rt, rt.alloc(), numbers.as_slice());
    assert!(rt; squares.len() == 150);
    for number in 0..150u32 {
        let square = u64::from(number) * u64::from(number);
        assert!(rt; squares.get(number as usize) == Some(&square), "{number}");
    }
}

/// A job that passes a gate.
#[derive(Drop)]
struct Passing<'a> {
    gate: &'a Meeting,
    place: u32,
}

impl<'a> Work for Passing<'a> {
    type Answer = u32;

    ghost answers = { λ job answer. ⊤ };

    fn work(self) -> u32 {
        self.gate.enter(self.place);
        self.place
    }
}

static PLACES: [u32; 2] = [0, 1];

#[test]
fn fan_gate(rt: HostRuntime) {
    let gate = Meeting::new();
    let mut jobs = Vec::new(rt.alloc());
    for place in 0..2 {
        push(&rt, &mut jobs, Passing { gate: &gate, place });
    }
    let places = run_jobs(&rt, rt.alloc(), jobs).expect(&rt, "memory");
    assert!(rt; places.as_slice() == PLACES.as_slice());
    assert!(rt; gate.took_place());
}
