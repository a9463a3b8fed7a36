//! Where the rows lie at an end of a segment.

ghost use Rattle.std.specs.Prelude.{◌≡◌, map, IfOk};
ghost use Rattle.cert_text.specs.Chains.{places, side_at, values_at, is_same_side};
ghost use Rattle.cert_text.specs.declared.place.Place.TheVariants.{On};

use frac_core::{List, OutOfMemory};
use loss_model::Side;
use ratio::Ratio;
use std::alloc::{AllocError, Global};

/// Where a row lies: above the fit, below it, or on it with a dual value of its own.
#[derive(Drop)]
pub(crate) enum Place<F> {
    Above,
    Below,
    On(F),
}

impl Place<Ratio> {
    /// The side of the row.
    pub(crate) fn side(&self) -> Side
        ensures { result ≡ side_at self.now }
    {
        match self {
            Place::Above => Side::Up,
            Place::Below => Side::Down,
            Place::On(_) => Side::Basic,
        }
    }

    /// The same place once more.
    pub(crate) fn copy(&self, alloc: Global) -> Result<Place<Ratio>, OutOfMemory>
        ensures { IfOk result (λ place. place ≡ self.now) }
    {
        match self {
            Place::Above => Ok(Place::Above),
            Place::Below => Ok(Place::Below),
            Place::On(value) => {
                let value = value.copy(alloc)?;
                Ok(Place::On(value))
            }
        }
    }

    /// Whether a row here and a row there are on the same side.
    pub(crate) fn has_side_of(&self, other: &Place<Ratio>) -> bool
        ensures { result ≡ is_same_side self.now other.now }
    {
        match (self, other) {
            (Place::Above, Place::Above) => true,
            (Place::Below, Place::Below) => true,
            (Place::On(_), Place::On(_)) => true,
            _ => false,
        }
    }
}

// A row on the fit with this dual value.
fn on(alloc: Global, value: &Ratio) -> Result<Place<Ratio>, AllocError>
    ensures { IfOk result (λ place. place ≡ On value.now) }
{
    match value.copy(alloc) {
        Ok(value) => Ok(Place::On(value)),
        Err(_) => Err(AllocError),
    }
}

/// Where each row lies, with the dual values in turn for the rows that are basic. Where a value is
/// missing, the list ends.
pub(crate) fn places(
    alloc: Global,
    sides: &[Side],
    values: &[Ratio],
) -> Result<Vec<Place<Ratio>>, AllocError>
    ensures { IfOk result (λ ps. ps.items ≡ places sides.now values.now) }
{
    let mut found = Vec::with_capacity(alloc, sides.len())?;
    let mut used = 0;
    for side in sides {
        match side {
            Side::Up => found.push(Place::Above)?,
            Side::Down => found.push(Place::Below)?,
            Side::Basic => {
                if used == values.len() {
                    return Ok(found);
                }
                found.push(on(alloc, &values[used])?)?;
                used += 1;
            }
        }
    }
    Ok(found)
}

/// The sides of the rows.
pub(crate) fn sides(alloc: Global, places: &List<Place<Ratio>>) -> Result<List<Side>, AllocError>
    ensures { IfOk result (λ sides. sides ≡ map side_at places.now) }
{
    let places = places.as_slice();
    let mut found = Vec::with_capacity(alloc, places.len())?;
    for place in places {
        found.push(place.side())?;
    }
    Ok(List::from(found))
}

/// The dual values of the rows that are on the fit.
pub(crate) fn values(alloc: Global, places: &List<Place<Ratio>>) -> Result<List<Ratio>, OutOfMemory>
    ensures { IfOk result (λ values. values ≡ values_at places.now) }
{
    let mut found = List::new(alloc);
    for place in places.as_slice() {
        if let Place::On(value) = place {
            found.add(value.copy(alloc)?)?;
        }
    }
    Ok(found)
}
