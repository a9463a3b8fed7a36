//! The entries of perturbed ratios.
ghost use Rattle.std.specs.Prelude.{◌≡◌, ◌≢◌, ◌⊎◌, IfOk, IfErr, pos};
ghost use Rattle.rational_laws.specs.Fraction.{rational};
ghost use Rattle.rational_laws.specs.Rational.{◌*ℚ◌, inverse, whole};
ghost use Rattle.rational_laws.specs.Order.{cmp_ℚ};
ghost use Rattle.loss_model.specs.Spill.{abs_ℚ};
ghost use Rattle.basis_model.specs.Perturbed.{turned};
ghost use Rattle.lex_rule.specs.Divisor.{entry_over, IsDivisorSpill};

use frac_core::{Exact, OpKind};
use loss_model::{Quantity, Side, Site, Spill, over_at};
use std::cmp::Ordering;

/// The absolute value.
pub fn absolute<F: Exact>(value: F) -> F
    ensures { rational (F.value result) ≡ abs_ℚ (rational (F.value value)) }
{
    if value.sign() < 0 { value.neg() } else { value }
}

/// What the entries of a perturbed ratio share: the row and the position, which name their sites,
/// the absolute coordinate, and the side.
#[derive(Clone, Copy)]
pub struct Divisor<F> {
    pub row: u32,
    pub position: u32,
    pub size: F,
    pub side: Side,
}

/// An entry of the ratio, from that of the perturbed residual.
fn divided<F: Exact>(by: Divisor<F>, entry: u32, perturbed: F) -> Result<F, Spill<F>>
    requires { rational (F.value by.size) ≢ whole (pos 0) }
    ensures exact { IfOk result (λ q. rational (F.value q) ≡ entry_over F.value by perturbed) }
    ensures spilled { IfErr result (IsDivisorSpill F.value F.range by entry perturbed) }
{
    let site = Site {
        quantity: Quantity::PerturbedRatio,
        first: by.row,
        second: by.position,
        third: entry,
        term: 1,
        kind: OpKind::Div,
    };
    let quotient = over_at(site, perturbed, by.size)?;
    match by.side {
        Side::Down => Ok(quotient.neg()),
        _ => Ok(quotient),
    }
}

/// How the same entry of two ratios compares.
pub fn compare_entries<F: Exact>(
    by: (Divisor<F>, Divisor<F>),
    perturbed: (F, F),
    entry: u32,
) -> Result<Ordering, Spill<F>>
    requires left_some { rational (F.value by.0.size) ≢ whole (pos 0) }
    requires right_some { rational (F.value by.1.size) ≢ whole (pos 0) }
    ensures exact { IfOk result (λ o.
        o ≡ cmp_ℚ (entry_over F.value by.0 perturbed.0) (entry_over F.value by.1 perturbed.1)) }
    ensures spilled { IfErr result (λ s. IsDivisorSpill F.value F.range by.0 entry perturbed.0 s
        ⊎ IsDivisorSpill F.value F.range by.1 entry perturbed.1 s) }
{
    let first = divided(by.0, entry, perturbed.0)?;
    let second = divided(by.1, entry, perturbed.1)?;
    Ok(first.compare(second))
}
