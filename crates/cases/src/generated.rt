//! Generated tables. One of more than 1000 bytes is told by its length, its digest, its beginning and its end.

use crate::told::Told;
use std::alloc::Global;
use table_maker::make;

fn table_of(alloc: Global, asked: &str) -> Option<Vec<u8>> {
    let mut words = asked.split(' ');
    let number = words.next()?.parse::<u32>().ok()?;
    let rows = words.next()?.parse::<u32>().ok()?;
    let columns = words.next()?.parse::<u32>().ok()?;
    if rows > 16384 {
        return None;
    }
    if columns > 100 {
        return None;
    }
    make(alloc, number, rows, columns).ok()
}

// The digest of FNV-1a in 64 bits.
fn digest_of(bytes: &[u8]) -> u64 {
    let mut digest: u64 = 0xcbf2_9ce4_8422_2325;
    for byte in bytes {
        digest = (digest ^ u64::from(*byte)).wrapping_mul(0x0100_0000_01b3);
    }
    digest
}

fn tell_table(told: &mut Told, table: &[u8]) {
    if table.len() <= 1000 {
        return told.put_bytes(table);
    }
    told.put_count(table.len());
    told.put(" ");
    told.put_debug(&digest_of(table));
    told.put(" ");
    told.put_bytes(&table[..12]);
    told.put(" .. ");
    told.put_bytes(&table[table.len() - 25..]);
}

/// Tells the table of a number, of so many records and columns.
pub(crate) fn tell(told: &mut Told, asked: &str) {
    match table_of(told.alloc(), asked) {
        Some(table) => tell_table(told, table.as_slice()),
        None => told.put("no table"),
    }
}
