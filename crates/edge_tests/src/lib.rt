//! Tests of what a case of `cases` can't hold. Of layers: streams of bytes that fail (`port_io`), jobs at once (`rq_fan`), and what may be
//! handed to another thread. Of whole runs (`rq_cli`): streams that fail, jobs that meet at a
//! gate, and drawn weights.
//!
//! What is tested is what no clause says, and that the definitions say what was meant: each answer was worked out apart from the program.
#![tactic(auto)]

#[cfg(test)]
mod helpers;
#[cfg(test)]
mod jobs;
#[cfg(test)]
mod meeting;
#[cfg(test)]
mod runs;
#[cfg(test)]
mod streams;
#[cfg(test)]
mod threads;
