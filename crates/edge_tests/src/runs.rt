//! Whole runs: words and a table go in, and every byte that is written is compared.

mod gates;
mod helpers;
mod hostile;
mod streams;
mod weights;
