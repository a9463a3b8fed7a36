//! Where a walk leaves a basis.
ghost use Rattle.tableau_model.specs.Crossings.{IsSooner};

use frac_core::Exact;
use pivot_model::Direction;

/// The value of a walk's parameter at which a position leaves, and the direction.
#[derive(Clone, Copy)]
pub struct Breakpoint<F> {
    pub theta: F,
    pub position: u32,
    pub direction: Direction,
}

/// The breakpoint of the two that comes first, and the first of equal ones.
pub fn sooner<F: Exact>(
    first: Option<Breakpoint<F>>,
    second: Option<Breakpoint<F>>,
) -> Option<Breakpoint<F>>
    ensures { IsSooner F.value first second result }
{
    match (first, second) {
        (Some(one), Some(two)) => {
            if two.theta.compare(one.theta).is_lt() {
                Some(two)
            } else {
                Some(one)
            }
        }
        (None, two) => two,
        (one, None) => one,
    }
}
