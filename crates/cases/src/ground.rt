//! What the cases of a file ask of the lowest crates: fractions, numbers of 128 bits and of any size, arithmetics, codings, generated
//! tables, losses, predictions and projections.

use crate::told::Told;
use crate::{
    codings, evaluations, fractions, generated, losses, naturals, projections, ratios, steps, wides,
};

/// What is asked.
#[derive(Clone, Copy)]
pub(crate) enum Ground {
    Fractions,
    Widths,
    Naturals,
    Ratios,
    Evaluations,
    Codings,
    Generated,
    Losses,
    Sites,
    Narrowed,
    Steps,
    Rearrangements,
    Wides,
    Projections,
}

/// The kind of the cases of a file, by its name without its ending.
pub(crate) fn ground_of(name: &str) -> Option<Ground> {
    let ground = match name {
        "fractions" => Ground::Fractions,
        "widths" => Ground::Widths,
        "naturals" => Ground::Naturals,
        "ratios" => Ground::Ratios,
        "evaluations" => Ground::Evaluations,
        "codings" => Ground::Codings,
        "generated" => Ground::Generated,
        "losses" => Ground::Losses,
        "sites" => Ground::Sites,
        "narrowed" => Ground::Narrowed,
        "steps" => Ground::Steps,
        "rearrangements" => Ground::Rearrangements,
        "wides" => Ground::Wides,
        "projections" => Ground::Projections,
        _ => return None,
    };
    Some(ground)
}

/// Tells the answer to what is asked, beside what its file shares.
pub(crate) fn tell(told: &mut Told, ground: Ground, shared: &str, asked: &str) {
    match ground {
        Ground::Fractions => fractions::tell(told, asked),
        Ground::Widths => fractions::tell_narrow(told, asked),
        Ground::Naturals => naturals::tell(told, asked),
        Ground::Ratios => ratios::tell(told, asked),
        Ground::Evaluations => evaluations::tell(told, asked),
        Ground::Codings => codings::tell(told, asked),
        Ground::Generated => generated::tell(told, asked),
        Ground::Losses => losses::tell(told, shared, asked),
        Ground::Sites => losses::tell_operation(told, asked),
        Ground::Narrowed => losses::tell_narrowed(told, asked),
        Ground::Steps => steps::tell(told, asked),
        Ground::Rearrangements => steps::tell_ordered(told, asked),
        Ground::Wides => wides::tell(told, asked),
        Ground::Projections => projections::tell(told, asked),
    }
}
