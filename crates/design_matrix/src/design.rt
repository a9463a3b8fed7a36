//! What a design is: the names of its columns, and a row for each record that is kept or predicted.
use frac_core::{Frac128, List, Text};

/// A kept record as a row of a regression.
#[derive(Drop)]
pub struct DesignRow {
    /// The record's number in the table, from 1.
    pub rec: u32,
    /// An entry for each column of the design.
    pub x: List<Frac128>,
    /// The response, less the value of each offset.
    pub y: Frac128,
    /// The weight, which is above 0.
    pub weight: Frac128,
}

/// A record whose response is missing, as a row of the regression.
#[derive(Drop)]
pub struct PredictRow {
    /// The record's number in the table, from 1.
    pub rec: u32,
    /// An entry for each column of the design.
    pub x: List<Frac128>,
    /// The values of the formula's offsets, in their order.
    pub offsets: List<Frac128>,
}

/// The design of a formula: what its columns are called, and a row for each record that is kept.
#[derive(Drop)]
pub struct Design {
    pub names: List<Text>,
    /// The rows, in the order of their records.
    pub rows: List<DesignRow>,
    /// How many records aren't kept.
    pub dropped: u32,
}
