//! The terms of `A : B`: the unions of a term of each side.
ghost use Rattle.std.specs.Prelude.{◌≡◌, ◌<◌, length, map, IfOk, MatchOption};
ghost use Rattle.formula_parser.specs.Terms.{plus, size, union, unions};

use crate::term_set::TermSet;
use frac_core::List;
use std::alloc::{AllocError, Global};

/// The most terms of an operator.
pub(crate) const MOST_TERMS: usize = 4096;

fn union_of(alloc: Global, left: &[bool], right: &[bool]) -> Result<Vec<bool>, AllocError>
    ensures { IfOk result (λ v. v.items ≡ union left.now right.now) }
{
    left.iter().zip(right).map(|(x, y)| *x | *y).collect(alloc)
}

// The unions of one term with each of a list, added to what was found; `None` once there are more
// than the most terms.
fn add_unions(
    alloc: Global,
    found: TermSet,
    first: &[bool],
    right: &[List<bool>],
) -> Result<Option<TermSet>, AllocError>
    ensures { let all = plus found (map (union first.now) right.now) in
        IfOk result (λ o. MatchOption o (MOST_TERMS < length all) (λ s. s ≡ all)) }
{
    let mut found = found;
    for second in right {
        let both = match union_of(alloc, first, second.as_slice()) {
            Ok(both) => both,
            Err(error) => {
                drop(found);
                return Err(error);
            }
        };
        found = found.with(alloc, both)?;
        if found.as_slice().len() > MOST_TERMS {
            drop(found);
            return Ok(None);
        }
    }
    Ok(Some(found))
}

/// The unions of a term of each list, the first list outermost, added to what was found; `None`
/// once there are more than the most terms.
pub(crate) fn add_crossed(
    alloc: Global,
    found: TermSet,
    left: &[List<bool>],
    right: &[List<bool>],
) -> Result<Option<TermSet>, AllocError>
    ensures { let all = plus found (unions left.now right.now) in
        IfOk result (λ o. MatchOption o (MOST_TERMS < length all) (λ s. s ≡ all)) }
{
    let mut found = found;
    for first in left {
        match add_unions(alloc, found, first.as_slice(), right)? {
            None => return Ok(None),
            Some(more) => found = more,
        }
    }
    Ok(Some(found))
}
