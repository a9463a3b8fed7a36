//! Number text, from a fraction to bytes.
ghost use Rattle.std.specs.Prelude.{◌≡◌, ◌++◌, ◌∷◌, IfOk, decimal, string_bytes};
ghost use Rattle.std.specs.Fmt.{signed_decimal};
ghost use Rattle.frac_core.specs.NumberText.{number_text_of};

use crate::{Exact, OutOfMemory, Text};
use itoa::Buffer;
use std::alloc::{AllocError, Global};

fn spell_fraction(alloc: Global, n: i128, d: i128) -> Result<String, AllocError>
    ensures { IfOk result (λ s. string_bytes s ≡ signed_decimal n ++ 47 ∷ signed_decimal d) }
{
    let mut numerator = Buffer::new();
    let mut denominator = Buffer::new();
    let above = numerator.format(n);
    let below = denominator.format(d);
    let mut text = String::with_capacity(alloc, above.len() + 1 + below.len())?;
    text.push_str(above)?;
    text.push('/')?;
    text.push_str(below)?;
    Ok(text)
}

fn spell_whole(alloc: Global, n: i128) -> Result<String, AllocError>
    ensures { IfOk result (λ s. string_bytes s ≡ signed_decimal n) }
{
    let mut numerator = Buffer::new();
    String::from_str(alloc, numerator.format(n))
}

/// The number text of a value: `n` where the denominator is 1, else `n/d`. It refuses only for
/// memory.
#[tactic(auto, unfolding(crate::specs::NumberText::number_text_of))]
pub fn number_text<F: Exact>(alloc: Global, value: F) -> Result<Text, OutOfMemory>
    ensures { IfOk result (λ t. t ≡ number_text_of (F.value value)) }
{
    let n = value.numerator();
    let d = value.denominator();
    let spelled = if d == 1 {
        spell_whole(alloc, n)
    } else {
        spell_fraction(alloc, n, d)
    };
    match spelled {
        Ok(text) => Ok(Text::from(text)),
        Err(_) => Err(OutOfMemory),
    }
}
