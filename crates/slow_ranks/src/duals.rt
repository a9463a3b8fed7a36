//! Which tested values hold, from all vertices of the dual polytope of the restricted problem.
//!
//! At a vertex all rows but two have a dual value at one of their bounds, and those two balance the
//! columns that aren't tested. The statistic of the optimal lists at a tested value goes from the least
//! one of the optimal vertices to the greatest.

use crate::tables::{RankTest, Ratio, Row, Whole, minor};
use std::alloc::{AllocError, Global};
use std::num::Wrapping;

/// What the dual values weigh in each column, and with the responses.
#[derive(Clone, Copy)]
struct Weights {
    x: [Whole; 3],
    y: Whole,
}

impl Weights {
    fn none() -> Weights {
        Weights {
            x: [Wrapping(0), Wrapping(0), Wrapping(0)],
            y: Wrapping(0),
        }
    }

    fn plus(self, row: &Row, value: Whole) -> Weights {
        Weights {
            x: [
                self.x[0] + value * row.at(0),
                self.x[1] + value * row.at(1),
                self.x[2] + value * row.at(2),
            ],
            y: self.y + value * Wrapping(row.y),
        }
    }

    fn times(self, factor: Whole) -> Weights {
        Weights {
            x: [factor * self.x[0], factor * self.x[1], factor * self.x[2]],
            y: factor * self.y,
        }
    }
}

/// A vertex: its statistic, and the sum of responses times dual values.
#[derive(Clone, Copy)]
pub struct Vertex {
    statistic: Ratio,
    sum: Ratio,
}

impl Vertex {
    /// The objective at a tested value: the sum of what is left of the responses times dual values.
    fn objective(self, xi: Ratio) -> Ratio {
        Ratio {
            num: self.sum.num * xi.den * self.statistic.den
                - xi.num * self.statistic.num * self.sum.den,
            den: self.sum.den * xi.den * self.statistic.den,
        }
    }
}

/// The optimal vertices at a tested value: their objective, and the ends of their statistics.
#[derive(Clone, Copy)]
struct Optimum {
    objective: Ratio,
    least: Ratio,
    greatest: Ratio,
}

impl Optimum {
    fn of(vertex: Vertex, xi: Ratio) -> Optimum {
        Optimum {
            objective: vertex.objective(xi),
            least: vertex.statistic,
            greatest: vertex.statistic,
        }
    }

    fn with(self, vertex: Vertex, xi: Ratio) -> Optimum {
        let other = Optimum::of(vertex, xi);
        if self.objective.is_less(other.objective) {
            return other;
        }
        if other.objective.is_less(self.objective) {
            return self;
        }
        Optimum {
            objective: self.objective,
            least: lesser(self.least, other.least),
            greatest: greater(self.greatest, other.greatest),
        }
    }
}

fn lesser(a: Ratio, b: Ratio) -> Ratio {
    if b.is_less(a) { b } else { a }
}

fn greater(a: Ratio, b: Ratio) -> Ratio {
    if a.is_less(b) { b } else { a }
}

fn best_of(vertices: &[Vertex], xi: Ratio) -> Option<Optimum> {
    let mut best: Option<Optimum> = None;
    for vertex in vertices {
        best = match best {
            Some(best) => Some(best.with(*vertex, xi)),
            None => Some(Optimum::of(*vertex, xi)),
        };
    }
    best
}

impl RankTest {
    /// Whether a dual value is within the bounds of its row, both over the denominator of the quantile.
    fn is_allowed(&self, row: &Row, value: Whole, over: Whole) -> bool {
        let [up, down] = self.costs(row);
        if value > up * over {
            return false;
        }
        value >= -(down * over)
    }

    /// What the rows outside the basis weigh. A row is at its up cost where its digit is 1 in `sides`,
    /// in binary, and at its negated down cost where it is 0; the digits of the basis are 0.
    fn outside(&self, basis: [usize; 2], sides: u32) -> Option<Weights> {
        let mut sum = Weights::none();
        let mut digit: u32 = 1;
        for (place, row) in self.rows.iter().enumerate() {
            let [up, down] = self.costs(row);
            if place != basis[0] && place != basis[1] {
                sum = sum.plus(row, if sides & digit == 0 { -down } else { up });
            } else if sides & digit != 0 {
                return None;
            }
            digit = digit.wrapping_mul(2);
        }
        Some(sum)
    }

    /// The vertex with these rows in the basis and the others on these sides; none where the two rows
    /// are dependent, or their values not within their bounds.
    fn vertex(&self, basis: [usize; 2], sides: u32) -> Option<Vertex> {
        let a = self.rows.get(basis[0])?;
        let b = self.rows.get(basis[1])?;
        let sign = Wrapping(minor(a, b).0.signum());
        if sign.0 == 0 {
            return None;
        }
        let outside = self.outside(basis, sides)?;
        let sum = outside.times(sign);
        let over = sign * minor(a, b);
        let first = sum.x[2] * b.at(1) - sum.x[1] * b.at(2);
        let second = sum.x[1] * a.at(2) - sum.x[2] * a.at(1);
        if !self.is_allowed(a, first, over) || !self.is_allowed(b, second, over) {
            return None;
        }
        let all = outside.times(over).plus(a, first).plus(b, second);
        let den = over * Wrapping(self.tau[1]);
        Some(Vertex {
            statistic: Ratio::new(all.x[0], den),
            sum: Ratio::new(all.y, den),
        })
    }

    /// How many choices of a side for each row there are.
    fn choices(&self) -> u32 {
        let mut choices: u32 = 1;
        for _ in &self.rows {
            choices = choices.wrapping_mul(2);
        }
        choices
    }

    fn add_with_both(&self, basis: [usize; 2], found: &mut Vec<Vertex>) -> Result<(), AllocError> {
        for sides in 0..self.choices() {
            if let Some(vertex) = self.vertex(basis, sides) {
                found.push(vertex)?;
            }
        }
        Ok(())
    }

    fn add_with(&self, first: usize, found: &mut Vec<Vertex>) -> Result<(), AllocError> {
        for second in 0..first {
            self.add_with_both([first, second], found)?;
        }
        Ok(())
    }

    /// All vertices, some of them more than once.
    pub fn vertices(&self, alloc: Global) -> Result<Vec<Vertex>, AllocError> {
        let mut found = Vec::new(alloc);
        for first in 0..self.rows.len() {
            self.add_with(first, &mut found)?;
        }
        Ok(found)
    }

    /// Whether some optimal dual values at the tested value are within the bound. Where their statistics
    /// go from one side of 0 to the other, a mix of them has the statistic 0.
    pub fn holds(&self, vertices: &[Vertex], xi: Ratio) -> bool {
        let Some(best) = best_of(vertices, xi) else {
            return false;
        };
        let length = self.length_by_projection();
        if self.is_within(best.least, length) || self.is_within(best.greatest, length) {
            return true;
        }
        best.least.num.0 < 0 && best.greatest.num.0 > 0
    }
}
