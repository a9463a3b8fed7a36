//! A source's bytes to its end.
ghost use Rattle.std.specs.Prelude.{◌≡◌, ℕ, ◌+◌, ◌^◌, ◌<◌, ◌≤◌, length, take, drop, vec_len, IfOk, OnOk, OnErr, IsErrOf};
ghost use Rattle.std.specs.Io.{ReadsAtMost};
ghost use Rattle.std.specs.Io.KnownBytes.{ReadConsumes};
ghost use Rattle.port_io.specs.Counts.{CountsFaults, Rose};
ghost use Rattle.port_io.specs.Told.{most_bytes, TakesAll, TakesFirst, TakesSome};

use crate::{Failed, Source};
use std::alloc::{AllocError, Global};

/// Why no bytes were handed on.
#[derive(Clone, Copy, Debug, PartialEq, Eq)]
pub enum ReadFault {
    /// A read failed.
    Failed,
    /// More than 2^26 bytes came.
    TooLong,
    /// No memory was found.
    OutOfMemory,
}

// The most bytes that are handed on.
const MOST_BYTES: usize = 1 << 26;

// The least room that is made at once.
const PIECE: usize = 1 << 16;

/// Reads a source to its end, into room that grows with what came.
///
/// `Ok` has exactly the bytes that were left. `TooLong` comes exactly where more than 2^26 bytes
/// came before the end, and then the first 2^26 + 1 of them were taken. `Failed` comes only where
/// the source's count of faults rose; where it grew, there is no other answer. After `Failed` and
/// `OutOfMemory` some bytes from the front were taken.
pub fn read_all<S: Source>(alloc: Global, source: &mut S) -> Result<Vec<u8>, ReadFault>
    ensures whole { IfOk result
        (λ bytes. TakesAll (S.left source.old) (S.left source.new) bytes.items) }
    ensures short { IfOk result (λ bytes. length bytes.items ≤ most_bytes) }
    ensures too_long { IsErrOf result ReadFault.TooLong
        → TakesFirst (S.left source.old) (S.left source.new) (most_bytes + 1) }
    ensures err { OnErr result (TakesSome (S.left source.old) (S.left source.new)) }

    ensures failed { IsErrOf result ReadFault.Failed
        → Rose (S.faults source.old) (S.faults source.new) }
    ensures grew { S.faults source.old < S.faults source.new → IsErrOf result ReadFault.Failed }
    ensures never_falls { S.faults source.old ≤ S.faults source.new }
{
    let mut bytes = Vec::new(alloc);
    let mut filled = 0;
    while filled <= MOST_BYTES {
        if make_room(&mut bytes, filled).is_err() {
            return Err(ReadFault::OutOfMemory);
        }
        match read_behind(source, &mut bytes, filled) {
            Err(Failed) => return Err(ReadFault::Failed),
            Ok(0) => {
                bytes.truncate(filled);
                return Ok(bytes);
            }
            Ok(count) => filled += count,
        }
    }
    Err(ReadFault::TooLong)
}

// Reads into the room behind the filled part.
fn read_behind<S: Source>(
    source: &mut S,
    bytes: &mut Vec<u8>,
    filled: usize,
) -> Result<usize, Failed>
    requires { filled ≤ vec_len bytes.old }
    ensures len { vec_len bytes.new ≡ vec_len bytes.old }
    ensures kept { take filled bytes.new.items ≡ take filled bytes.old.items }
    ensures bound { ReadsAtMost result (drop filled bytes.new.items) }
    ensures bytes { ReadConsumes (S.left source.old) (S.left source.new) result
        (drop filled bytes.new.items) }
    ensures counted { CountsFaults (S.faults source.old) (S.faults source.new) result }
{
    source.read(&mut bytes[filled..])
}

// Sees that there is room behind the filled part. Where there is none it doubles the room, up to
// one byte more than the limit, and that byte shows that too many came.
fn make_room(bytes: &mut Vec<u8>, filled: usize) -> Result<(), AllocError>
    requires filled { filled ≤ vec_len bytes.old }
    requires few { filled ≤ most_bytes }
    requires limit { vec_len bytes.old ≤ most_bytes + 1 }
    ensures kept { take filled bytes.new.items ≡ take filled bytes.old.items }
    ensures room { OnOk result (filled < vec_len bytes.new) }
    ensures limit { vec_len bytes.new ≤ most_bytes + 1 }
{
    if filled < bytes.len() {
        return Ok(());
    }
    let len = (2 * filled).max(PIECE).min(MOST_BYTES + 1);
    bytes.reserve_exact(len - filled)?;
    bytes.resize(len, 0)
}
