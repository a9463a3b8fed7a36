//! What follows from the contracts of the layers below, about whole jobs.
//!
//! The crate has no code. Its contract is its laws. `inputs`: bytes that are an input have no fault, so a refusal comes exactly
//! where there is no input; they have one fault at most, and generated tables have none. `certificates`: what `certify` writes is
//! accepted by `check`, unless memory ends. `runs`: over `IsRun` of `rq_cli`, a limit, dependent columns and a certificate's
//! length stop only a run that had to, and a job whose input is well formed is answered. `reports`: the printed coefficients lose
//! least among all vectors of real numbers, where they are the only ones, how the marks split the records, what never falls, and
//! which responses may change.
//!
//! It stands on `rq_cli`, on the definitions of `rq_input` and of `table_maker`, on `cert_text` and the conditions of
//! `cert_checker`, on `stop_laws`, on the laws of quantile fits (`quantile_laws`) and on those of real numbers (`real_laws`).
#![tactic(auto)]

pub mod certificates;
pub mod inputs;
pub mod reports;
pub mod runs;
