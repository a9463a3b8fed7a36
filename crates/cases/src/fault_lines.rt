//! The lines of overflows and limits of the solver, by place.
//!
//! Asked are the place, and behind `;` the quantity and the operation of what overflows at the indices 4, 1 and 2 and the term 9, with the
//! operands 7/2 and -3; or `limit`, which is 2.

use crate::numbers::number_of;
use crate::told::Told;
use frac_core::{Frac128, List, OpKind};
use loss_model::{Quantity, Site, Spill, Trail};
use report_text::{Fault, Halt, Place, fault_line};
use std::alloc::Global;

fn quantity_of(word: &str) -> Option<Quantity> {
    let quantity = match word {
        "Coordinate" => Quantity::Coordinate,
        "Coefficient" => Quantity::Coefficient,
        "Residual" => Quantity::Residual,
        "NonbasicTotal" => Quantity::NonbasicTotal,
        "BasicDual" => Quantity::BasicDual,
        "DualValue" => Quantity::DualValue,
        "CostValue" => Quantity::CostValue,
        "Slope" => Quantity::Slope,
        "CostSum" => Quantity::CostSum,
        "Crossing" => Quantity::Crossing,
        "PerturbedRatio" => Quantity::PerturbedRatio,
        "ExchangedEntry" => Quantity::ExchangedEntry,
        "Loss" => Quantity::Loss,
        "Score" => Quantity::Score,
        "ScaledEntry" => Quantity::ScaledEntry,
        "Gram" => Quantity::Gram,
        "Projection" => Quantity::Projection,
        "SquaredLength" => Quantity::SquaredLength,
        "Ray" => Quantity::Ray,
        "Statistic" => Quantity::Statistic,
        "DesignEntry" => Quantity::DesignEntry,
        "PenaltyEntry" => Quantity::PenaltyEntry,
        "CheckSum" => Quantity::CheckSum,
        "Prediction" => Quantity::Prediction,
        "PathCost" => Quantity::PathCost,
        "ArithValue" => Quantity::ArithValue,
        "OffsetResponse" => Quantity::OffsetResponse,
        _ => return None,
    };
    Some(quantity)
}

fn kind_of(word: &str) -> Option<OpKind> {
    match word {
        "Add" => Some(OpKind::Add),
        "Sub" => Some(OpKind::Sub),
        "Mul" => Some(OpKind::Mul),
        "Div" => Some(OpKind::Div),
        _ => None,
    }
}

fn spill_of(text: &str) -> Option<Spill<Frac128>> {
    let (quantity, kind) = text.split_once(' ')?;
    Some(Spill {
        site: Site {
            quantity: quantity_of(quantity)?,
            first: 4,
            second: 1,
            third: 2,
            term: 9,
            kind: kind_of(kind)?,
        },
        left: number_of("7/2")?,
        right: number_of("-3")?,
    })
}

fn interval_of(text: &str) -> Option<Place> {
    let (column, tau) = text.split_once(' ')?;
    let column = column.parse::<u32>().ok()?;
    let tau = number_of(tau)?;
    Some(Place::Interval { column, tau })
}

fn place_of(text: &str) -> Option<Place> {
    let (word, rest) = text.split_once(' ').unwrap_or((text, ""));
    match word {
        "process" => Some(Place::Process),
        "full" => Some(Place::Full),
        "path" => Some(Place::Path),
        "interval" => interval_of(rest),
        _ => None,
    }
}

fn halt_of(alloc: Global, asked: &str) -> Option<Halt> {
    let (place, what) = asked.split_once("; ")?;
    let place = place_of(place)?;
    let trail = Trail {
        start: List::new(alloc),
        steps: List::new(alloc),
        rise: List::new(alloc),
        fall: List::new(alloc),
    };
    match what {
        "limit" => Some(Halt::PivotLimit {
            place,
            limit: 2,
            trail,
        }),
        _ => Some(Halt::Overflow {
            place,
            trail,
            spill: spill_of(what)?,
        }),
    }
}

/// Tells the line of a stop.
pub(crate) fn tell(told: &mut Told, asked: &str) {
    let Some(halt) = halt_of(told.alloc(), asked) else {
        return told.put("no halt");
    };
    let fault = Fault::Halt(halt);
    let line = fault_line(told.alloc(), &fault);
    drop(fault);
    match line {
        Ok(line) => told.put_bytes(line.as_slice()),
        Err(_) => told.put("no memory"),
    }
}
