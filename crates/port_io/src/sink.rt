//! What takes bytes.
ghost use Rattle.std.specs.Prelude.{ℕ, ◌<◌, List, length, IfOk};
ghost use Rattle.std.specs.declared.option.Option.{Option};
ghost use Rattle.std.specs.Io.{WritesAtMost};
ghost use Rattle.std.specs.Io.KnownBytes.{WriteAppends};
ghost use Rattle.port_io.specs.Counts.{CountsFaults};

use crate::Failed;

/// Where bytes go.
pub trait Sink {
    /// The bytes that were written, where the sink tells them.
    ghost written: { Self → Option (List ℕ) };

    /// How many writes have failed. The count never falls.
    ghost faults: { Self → ℕ };

    /// Adds the first bytes of the buffer, at least one where it has any, and says how many.
    ///
    /// `Failed` comes only where the count of faults rose, and then nothing was added.
    fn write(&mut self, buf: &[u8]) -> Result<usize, Failed>
        ensures bound { WritesAtMost result buf.now }
        ensures some { IfOk result (λ n. 0 < length buf.now → 0 < n) }
        ensures bytes { WriteAppends (written self.old) (written self.new) result buf.now }
        ensures counted { CountsFaults (faults self.old) (faults self.new) result };
}
