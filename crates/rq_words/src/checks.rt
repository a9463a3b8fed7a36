//! The checks on the numbers of a command, in their order.
ghost use Rattle.std.specs.Prelude.{◌≡◌};
ghost use Rattle.std.specs.List.{list_any};
ghost use Rattle.rational_laws.specs.Rational.{le_ℚ};
ghost use Rattle.frac_core.specs.Values.{exact};
ghost use Rattle.rq_words.specs.Requests.{option_numbers};
ghost use Rattle.rq_words.specs.Words.{ascends, fault_of, has_range as has_range_of, is_in_order, is_outside, is_lambda_range as is_lambda_range_of};

use crate::WordFault;
use crate::command::Kind;
use crate::numbers::Numbers;
use frac_core::{Exact, Frac128};
use std::cmp::Ordering;

fn is_at_most(x: Frac128, y: Frac128) -> bool
    ensures { result ≡ le_ℚ (exact x) (exact y) }
{
    x.compare(y) != Ordering::Greater
}

// Whether `0 <= lo <= hi <= 1`.
fn is_range(lo: Frac128, hi: Frac128) -> bool
    ensures { result ≡ is_in_order (exact lo) (exact hi) }
{
    is_at_most(Frac128::zero(), lo) && is_at_most(lo, hi) && is_at_most(hi, Frac128::one())
}

// Whether `0 <= tau <= 1` and `0 < lo <= hi`.
fn is_lambda_range(tau: Frac128, lo: Frac128, hi: Frac128) -> bool
    ensures { result ≡ is_lambda_range_of (exact tau) (exact lo) (exact hi) }
{
    is_at_most(Frac128::zero(), tau)
        && is_at_most(tau, Frac128::one())
        && !is_at_most(lo, Frac128::zero())
        && is_at_most(lo, hi)
}

// Whether a quantile isn't strictly between 0 and 1.
fn is_outside(tau: Frac128) -> bool
    ensures { result ≡ is_outside (exact tau) }
{
    is_at_most(tau, Frac128::zero()) || is_at_most(Frac128::one(), tau)
}

fn has_outside(taus: &[Frac128]) -> bool
    ensures { result ≡ list_any (λ tau. is_outside (exact tau)) taus.now }
{
    taus.iter().any(|tau| is_outside(*tau))
}

// Whether each number is below the next.
fn ascends(numbers: &[u32]) -> bool
    ensures { result ≡ ascends numbers.now }
{
    let mut least = 0;
    for number in numbers {
        if u64::from(*number) < least {
            return false;
        }
        least = u64::from(*number) + 1;
    }
    true
}

impl Numbers {
    // Whether the range is in order, as the job wants it.
    fn has_range(&self, kind: Kind) -> bool
        ensures { result ≡ has_range_of kind (option_numbers self.now) }
    {
        if kind.is_over_lambda() {
            is_lambda_range(self.tau, self.lo, self.hi)
        } else {
            is_range(self.lo, self.hi)
        }
    }

    /// What is wrong with the numbers of a job, the first that the checks find.
    #[tactic(auto, using(crate::proofs::ItemTests::any_of_values), unfolding(crate::specs::Words::fault_of))]
    pub fn fault(&self, kind: Kind) -> Option<WordFault>
        ensures { result ≡ fault_of kind (option_numbers self.now) }
    {
        if !self.has_range(kind) {
            return Some(WordFault::BadRange);
        }
        if self.crit.is_some() != self.taus.is_some() {
            return Some(WordFault::RankHalf);
        }
        if let Some(taus) = &self.taus
            && has_outside(taus.as_slice())
        {
            return Some(WordFault::BadTauForRank);
        }
        if let Some(crit) = self.crit
            && !is_at_most(Frac128::zero(), crit)
        {
            return Some(WordFault::NegativeLimit);
        }
        if !ascends(self.tested.as_slice()) {
            return Some(WordFault::NotAscending);
        }
        None
    }
}
