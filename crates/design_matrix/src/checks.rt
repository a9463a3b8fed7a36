//! Factors of one level.

ghost use Rattle.std.specs.Prelude.{◌≡◌, ◌⊎◌, None, Some, IfErr, OnOk, map};
ghost use Rattle.design_matrix.specs.Faults.{levels_fault, terms_fault};
ghost use Rattle.design_matrix.specs.Views.{coded_seen, terms_seen};

use crate::DesignFault;
use crate::coded::CodedVariable;
use frac_core::Text;
use std::alloc::Global;

// Refuses a variable without a column.
fn check_variables(alloc: Global, term: &[CodedVariable<'_>]) -> Result<(), DesignFault>
    ensures sound { OnOk result (levels_fault (map coded_seen term.now) ≡ None) }
    ensures fault { IfErr result (λ e. (e ≡ DesignFault.OutOfMemory)
        ⊎ (levels_fault (map coded_seen term.now) ≡ Some e)) }
{
    for variable in term {
        if variable.width() == 0 {
            return Err(DesignFault::OneLevel {
                factor: Text::new(alloc, variable.name.as_str())?,
            });
        }
    }
    Ok(())
}

/// Refuses terms of which a factor that is coded by contrasts has one level.
pub(crate) fn check_terms(
    alloc: Global,
    terms: &[Vec<CodedVariable<'_>>],
) -> Result<(), DesignFault>
    ensures sound { OnOk result (terms_fault (terms_seen terms.now) ≡ None) }
    ensures fault { IfErr result (λ e. (e ≡ DesignFault.OutOfMemory)
        ⊎ (terms_fault (terms_seen terms.now) ≡ Some e)) }
{
    for term in terms {
        check_variables(alloc, term)?;
    }
    Ok(())
}
