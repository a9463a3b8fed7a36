//! All numbers of a walk as one.

use loss_model::{Process, Segment};
use ratio::Ratio;
use std::num::Wrapping;
use test_kit::short_parts;

/// The numbers that were put to it, as the digits of one to the base 31, modulo 2^128.
#[derive(Clone, Copy)]
struct Digest {
    sum: Wrapping<i128>,
}

impl Digest {
    fn put(&mut self, number: i128) {
        self.sum = self.sum * Wrapping(31) + Wrapping(number);
    }

    /// A number of more than 127 bits, which no digest of these tests has, stands as 0 over 0.
    fn put_value(&mut self, value: &Ratio) {
        let (n, d) = short_parts(value).unwrap_or((0, 0));
        self.put(n);
        self.put(d);
    }

    fn put_values(&mut self, values: &[Ratio]) {
        for value in values {
            self.put_value(value);
        }
    }

    /// The rows of the basis, each over 1.
    fn put_rows(&mut self, rows: &[u32]) {
        for row in rows {
            self.put(i128::from(*row));
            self.put(1);
        }
    }

    /// All numbers of a segment.
    fn put_segment(&mut self, segment: &Segment) {
        self.put_value(&segment.lo);
        self.put_value(&segment.hi);
        self.put_rows(segment.vertex.basis.rows.as_slice());
        self.put_values(segment.vertex.coef.as_slice());
        self.put_values(segment.basic_lo.as_slice());
        self.put_value(&segment.loss_lo);
        self.put_values(segment.basic_hi.as_slice());
        self.put_value(&segment.loss_hi);
    }
}

/// The digest of the segments, one after another.
pub(crate) fn digest_of(process: &Process) -> i128 {
    let mut digest = Digest { sum: Wrapping(0) };
    for segment in process.segments.as_slice() {
        digest.put_segment(segment);
    }
    digest.sum.0
}
