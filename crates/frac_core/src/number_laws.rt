//! Laws of number text.
ghost use Rattle.frac_core.specs.NumberLaws.{AreTooWide, HaveSignificand, ReadsBack};

/// Laws of number text: `read_number` reads what `number_text` writes; digits write `m * 10^k` with
/// `m` not divisible by 10, or 0; and when such a number is too wide.
pub fn number_text_laws()
    ensures reads_back { ReadsBack }
    ensures significand { HaveSignificand }
    ensures too_wide { AreTooWide }
{}
