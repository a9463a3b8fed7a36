//! Lists of terms without a term twice.
ghost use Rattle.std.specs.Prelude.{◌≡◌, ◌++◌, ◌∷◌, [], length, IfOk};
ghost use Rattle.formula_parser.specs.Terms.{is_in, minus, plus, with_term};

use frac_core::List;
use std::alloc::{AllocError, Global};
use std::collections::HashSet;
use std::marker::Model;

/// Distinct terms in order, and the set of them. Contracts see their list.
#[derive(Drop)]
pub(crate) struct TermSet {
    terms: List<List<bool>>,
    seen: HashSet<Vec<bool>>,
}

impl Model for TermSet {
    ghost use Rattle.std.specs.Prelude.{List as list, Bool};
    ghost use Rattle.formula_parser.specs.Known.{Knows};

    ghost Value = { list (list Bool) };

    ghost view = { λ s. s.terms };

    ghost invariant = { λ s. Knows (λ v. v.items) s.seen s.terms };
}

impl TermSet {
    pub(crate) fn new(alloc: Global) -> TermSet
        ensures { result ≡ [] }
    {
        TermSet {
            terms: List::new(alloc),
            seen: HashSet::new(alloc),
        }
    }

    pub(crate) fn as_slice(&self) -> &[List<bool>]
        ensures { result.now ≡ self.now }
    {
        self.terms.as_slice()
    }

    /// The terms without their set.
    pub(crate) fn into_list(self) -> List<List<bool>>
        ensures { result ≡ self }
    {
        self.terms
    }

    // A term is looked up as a key of the set.
    fn contains(&self, term: &Vec<bool>) -> bool
        ensures { result ≡ is_in term.now.items self.now }
    {
        self.seen.contains(term)
    }

    /// The set with a term at the end.
    pub(crate) fn push(self, alloc: Global, term: Vec<bool>) -> Result<TermSet, AllocError>
        ensures { IfOk result (λ s. s ≡ self ++ term.items ∷ []) }
    {
        let TermSet {
            mut terms,
            mut seen,
        } = self;
        let key = match Vec::from_slice(alloc, term.as_slice()) {
            Ok(key) => key,
            Err(error) => {
                drop(seen);
                return Err(error);
            }
        };
        let Ok(_) = seen.insert(key) else {
            drop(seen);
            return Err(AllocError);
        };
        match terms.push(List::from(term)) {
            Ok(()) => Ok(TermSet { terms, seen }),
            Err(_) => {
                drop(seen);
                Err(AllocError)
            }
        }
    }

    /// The set with one more term, where it isn't there yet.
    pub(crate) fn with(self, alloc: Global, term: Vec<bool>) -> Result<TermSet, AllocError>
        ensures { IfOk result (λ s. s ≡ with_term self term.items) }
    {
        if self.contains(&term) {
            Ok(self)
        } else {
            self.push(alloc, term)
        }
    }

    /// `A + B`.
    pub(crate) fn plus(self, alloc: Global, other: &TermSet) -> Result<TermSet, AllocError>
        ensures { IfOk result (λ s. s ≡ plus self other.now) }
    {
        let mut all = self;
        for term in other.as_slice() {
            let copy = Vec::from_slice(alloc, term.as_slice())?;
            all = all.with(alloc, copy)?;
        }
        Ok(all)
    }

    // The set with a term at the end, unless another one has it.
    fn push_unless_in(
        self,
        alloc: Global,
        term: Vec<bool>,
        other: &TermSet,
    ) -> Result<TermSet, AllocError>
        ensures { IfOk result (λ s. s ≡ self ++ minus (term.items ∷ []) other.now) }
    {
        if other.contains(&term) {
            Ok(self)
        } else {
            self.push(alloc, term)
        }
    }

    /// `A - B`.
    pub(crate) fn minus(self, alloc: Global, other: &TermSet) -> Result<TermSet, AllocError>
        ensures { IfOk result (λ s. s ≡ minus self other.now) }
    {
        terms_not_in(alloc, self.as_slice(), other)
    }
}

fn terms_not_in(alloc: Global, terms: &[List<bool>], other: &TermSet) -> Result<TermSet, AllocError>
    ensures { IfOk result (λ s. s ≡ minus terms.now other.now) }
{
    let mut left = TermSet::new(alloc);
    for term in terms {
        let copy = Vec::from_slice(alloc, term.as_slice())?;
        left = left.push_unless_in(alloc, copy, other)?;
    }
    Ok(left)
}
