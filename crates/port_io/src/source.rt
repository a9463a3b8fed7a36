//! What gives bytes.
ghost use Rattle.std.specs.Prelude.{ℕ, List};
ghost use Rattle.std.specs.declared.option.Option.{Option};
ghost use Rattle.std.specs.Io.{ReadsAtMost};
ghost use Rattle.std.specs.Io.KnownBytes.{ReadConsumes};
ghost use Rattle.port_io.specs.Counts.{CountsFaults};

use crate::Failed;

/// Where bytes come from.
pub trait Source {
    /// The bytes that are left, where the source tells them.
    ghost left: { Self → Option (List ℕ) };

    /// How many reads have failed. The count never falls.
    ghost faults: { Self → ℕ };

    /// Takes the first bytes that are left into the front of the buffer, and says how many.
    ///
    /// `Ok(0)` into a buffer that isn't empty says that nothing is left. `Failed` comes only where
    /// the count of faults rose, and then no byte was taken.
    fn read(&mut self, buf: &mut [u8]) -> Result<usize, Failed>
        ensures bound { ReadsAtMost result buf.new }
        ensures bytes { ReadConsumes (left self.old) (left self.new) result buf.new }
        ensures counted { CountsFaults (faults self.old) (faults self.new) result };
}
