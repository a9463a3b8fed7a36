//! Numbers that are drawn in a way that repeats.

ghost use Rattle.std.specs.Prelude.{◌<◌};

/// The next number of a linear congruential generator, below a limit.
pub fn draw(state: &mut u32, limit: u32) -> u32
    requires { 0 < limit }
    ensures { result < limit }
{
    *state = state.wrapping_mul(1_664_525).wrapping_add(1_013_904_223);
    *state / 65_536 % limit
}
