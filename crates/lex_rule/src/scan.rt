//! The rows of a basis in ascending order, without a sort.
ghost use Rattle.std.specs.Prelude.{◌≡◌, ◌↔◌, ◌<◌, length, slice_index, IsTrue};
ghost use Rattle.loss_model.specs.Problem.{value_at};
ghost use Rattle.lex_rule.specs.Scan.{AreZeroAt, IsNextPosition};

use frac_core::Exact;

/// Whether both coordinates at a position are 0.
fn are_zero_at<F: Exact>(left: &[F], right: &[F], position: usize) -> bool
    requires left { position < length left.now }
    requires right { position < length right.now }
    ensures { IsTrue result ↔ AreZeroAt (value_at F.value left.now) (value_at F.value right.now) position }
{
    left[position].is_zero() && right[position].is_zero()
}

/// The position of the least row of the basis, from `from` on and before `to`, at which one of the
/// two coordinates isn't 0.
pub fn next_position<F: Exact>(
    basis: &[u32],
    coords: (&[F], &[F]),
    from: u32,
    to: u32,
) -> Option<usize>
    requires left { length coords.0.now ≡ length basis.now }
    requires right { length coords.1.now ≡ length basis.now }
    ensures { let u = value_at F.value coords.entry.0.now in let v = value_at F.value coords.entry.1.now in
        IsNextPosition (length basis.now) (slice_index basis.now) u v from to result }
{
    let (left, right) = coords;
    let mut next = None;
    let mut end = to;
    for k in 0..basis.len() {
        let row = basis[k];
        if from <= row && row < end && !are_zero_at(left, right, k) {
            end = row;
            next = Some(k);
        }
    }
    next
}
