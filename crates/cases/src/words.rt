//! Lists of words, each behind a bar, and what they ask for or their first fault.

use crate::notation::text_of;
use crate::told::Told;
use frac_core::Frac128;
use rq_words::{FitJob, Job, PathJob, RankAsk, SampleJob, TestJob, WordFault, read_words};
use std::alloc::Global;

fn tell_rank(told: &mut Told, rank: &RankAsk) {
    told.put_number(rank.crit);
    let mut mark = "@";
    for tau in rank.taus.as_slice() {
        told.put(mark);
        told.put_number(*tau);
        mark = ",";
    }
}

fn tell_range(told: &mut Told, lo: Frac128, hi: Frac128) {
    told.put_number(lo);
    told.put("..");
    told.put_number(hi);
}

fn tell_fit(told: &mut Told, job: &str, fit: &FitJob) {
    told.put(job);
    told.put(fit.formula.as_str());
    told.put(" ");
    tell_range(told, fit.lo, fit.hi);
    match &fit.weights {
        Some(name) => {
            told.put(" w=");
            told.put(name.as_str());
        }
        None => told.put(" -"),
    }
    told.put(" ");
    told.put_debug(&fit.coding);
    told.put_named(" ", fit.limit);
    told.put(" ");
    match &fit.rank {
        Some(rank) => tell_rank(told, rank),
        None => told.put("-"),
    }
}

fn tell_test(told: &mut Told, test: &TestJob) {
    tell_fit(told, "test ", &test.fit);
    let mut mark = " ";
    for column in test.tested.as_slice() {
        told.put_named(mark, *column);
        mark = ",";
    }
}

fn tell_path(told: &mut Told, path: &PathJob) {
    tell_fit(told, "path ", &path.fit);
    told.put(" ");
    told.put_number(path.tau);
}

fn tell_sample(told: &mut Told, sample: &SampleJob) {
    told.put_named("sample ", sample.number);
    told.put_named(" ", sample.rows);
    told.put_named(" ", sample.columns);
    told.put(" ");
    tell_range(told, sample.lo, sample.hi);
    told.put_named(" ", sample.limit);
}

/// The name of a fault, and behind it the option that is at fault.
fn tell_fault(told: &mut Told, fault: &WordFault) {
    told.put(match fault {
        WordFault::NoJob => "NoJob",
        WordFault::UnknownJob => "UnknownJob",
        WordFault::BadOption => "BadOption",
        WordFault::BadNumber { .. } => "BadNumber ",
        WordFault::BadRange => "BadRange",
        WordFault::BadTauForRank => "BadTauForRank",
        WordFault::NegativeLimit => "NegativeLimit",
        WordFault::BadContrasts => "BadContrasts",
        WordFault::RankHalf => "RankHalf",
        WordFault::OutOfMemory => "OutOfMemory",
        WordFault::NotAscending => "NotAscending",
    });
    if let WordFault::BadNumber { option } = fault {
        told.put(option.as_str());
    }
}

fn tell_job(told: &mut Told, job: &Job) {
    match job {
        Job::Process(fit) => tell_fit(told, "process ", fit),
        Job::Ranks(fit) => tell_fit(told, "ranks ", fit),
        Job::Certify(fit) => tell_fit(told, "certify ", fit),
        Job::Test(test) => tell_test(told, test),
        Job::Predict(fit) => tell_fit(told, "predict ", fit),
        Job::Path(path) => tell_path(told, path),
        Job::Check => told.put("check"),
        Job::Sample(sample) => tell_sample(told, sample),
    }
}

// `drop` lets the answer go by its type: what a function itself lets go of so many kinds costs much to prove.
fn tell_answer(told: &mut Told, words: &[String]) {
    let answer = read_words(told.alloc(), words);
    match &answer {
        Ok(job) => tell_job(told, job),
        Err(fault) => tell_fault(told, fault),
    }
    drop(answer);
}

// Adds a word as it is written, and says whether it could.
fn add_word(alloc: Global, words: &mut Vec<String>, word: &str) -> bool {
    match text_of(alloc, word) {
        Some(word) => words.push(word).is_ok(),
        None => false,
    }
}

fn add_words(alloc: Global, words: &mut Vec<String>, text: &str) -> bool {
    for word in text.split('|').skip(1) {
        if !add_word(alloc, words, word) {
            return false;
        }
    }
    true
}

// The words that a case shares, and its own.
fn words_of(alloc: Global, shared: &str, asked: &str) -> Option<Vec<String>> {
    let mut words = Vec::new(alloc);
    if add_words(alloc, &mut words, shared) && add_words(alloc, &mut words, asked) {
        Some(words)
    } else {
        None
    }
}

/// What the words ask for, or their fault.
pub(crate) fn tell(told: &mut Told, shared: &str, asked: &str) {
    match words_of(told.alloc(), shared, asked) {
        Some(words) => tell_answer(told, words.as_slice()),
        None => told.put("no words"),
    }
}
