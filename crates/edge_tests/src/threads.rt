//! What may be handed to another thread or shared with it.

use frac_core::{Frac64, Frac128, List, Op, Text};
use loss_model::{Problem, Process, Short};
use rq_words::{Job, WordFault};

fn is_send<T: Send>() {}

fn is_sync<T: Sync>() {}

fn list_is_send<T: Send>() {
    is_send::<List<T>>();
}

fn list_is_sync<T: Sync>() {
    is_sync::<List<T>>();
}

// Compiles where values of the type may be handed to another thread and shared with it.
fn crosses<T: Send + Sync>() {}

// What is made of fractions may be handed to another thread where they may.
fn all_cross<F: Send + Sync>() {
    crosses::<Problem<F>>();
    crosses::<Process>();
    crosses::<Short<F>>();
}

#[test]
fn values_cross_threads() {
    crosses::<Text>();
    list_is_send::<Text>();
    list_is_sync::<Text>();
    crosses::<Frac64>();
    crosses::<Op<Frac128>>();
    all_cross::<Frac128>();
    crosses::<Job>();
    crosses::<WordFault>();
}
