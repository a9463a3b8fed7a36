//! What the cases of a file ask of problems that are derived from a problem, of rank intervals and of solves.

use crate::told::Told;
use crate::{grams, paths, problems};

/// What is asked.
#[derive(Clone, Copy)]
pub(crate) enum Derived {
    Paths,
    PathSizes,
    Grams,
    Products,
    Problems,
}

/// The kind of the cases of a file, by its name without its ending.
pub(crate) fn derived_of(name: &str) -> Option<Derived> {
    let derived = match name {
        "paths" => Derived::Paths,
        "path_sizes" => Derived::PathSizes,
        "grams" => Derived::Grams,
        "products" => Derived::Products,
        "intervals" | "solves" | "starts" | "limits" => Derived::Problems,
        _ => return None,
    };
    Some(derived)
}

/// Tells the answer to what is asked, beside what its file shares.
pub(crate) fn tell(told: &mut Told, derived: Derived, shared: &str, asked: &str) {
    match derived {
        Derived::Paths => paths::tell(told, shared, asked),
        Derived::PathSizes => paths::tell_size(told, asked),
        Derived::Grams => grams::tell(told, shared, asked),
        Derived::Products => grams::tell_product(told, asked),
        Derived::Problems => problems::tell(told, shared, asked),
    }
}
