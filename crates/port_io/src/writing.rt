//! All of some bytes to a sink.
ghost use Rattle.std.specs.Prelude.{OnOk, OnErr};
ghost use Rattle.std.specs.Io.KnownBytes.{Appends};
ghost use Rattle.port_io.specs.Counts.{CountsFaults};
ghost use Rattle.port_io.specs.Told.{AppendsPart};

use crate::{Failed, Sink};

/// Writes all the bytes.
///
/// `Failed` comes only where the sink's count of faults rose, and then a part of the bytes from
/// the front was added; where the count grew, there is no other answer.
pub fn write_all<K: Sink>(sink: &mut K, bytes: &[u8]) -> Result<(), Failed>
    ensures ok { OnOk result (Appends (K.written sink.old) (K.written sink.new) bytes.now) }
    ensures err { OnErr result (AppendsPart (K.written sink.old) (K.written sink.new) bytes.now) }
    ensures counted { CountsFaults (K.faults sink.old) (K.faults sink.new) result }
{
    let mut at = 0;
    while at < bytes.len() {
        at += sink.write(&bytes[at..])?;
    }
    Ok(())
}
