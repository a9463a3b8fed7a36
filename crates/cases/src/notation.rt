//! Bytes as they are written in a case.

use std::alloc::Global;

// Bytes that are made piece by piece. Where memory was wanting, or a backslash is followed by what may not follow one, they aren't whole: so
// nothing that adds to them has to give a fault back.
#[derive(Drop)]
struct Made {
    bytes: Vec<u8>,
    whole: bool,
}

impl Made {
    fn new(alloc: Global) -> Made {
        Made {
            bytes: Vec::new(alloc),
            whole: true,
        }
    }

    fn plain(alloc: Global, text: &str) -> Made {
        let mut made = Made::new(alloc);
        made.put_plain(text);
        made
    }

    fn put(&mut self, bytes: &[u8]) {
        if self.bytes.extend_from_slice(bytes).is_err() {
            self.whole = false;
        }
    }

    // What stands behind a backslash that begins with the letter of what is meant.
    fn put_behind(&mut self, meant: &[u8], piece: &[u8]) {
        self.put(meant);
        match piece.get(1..) {
            Some(rest) => self.put(rest),
            None => self.whole = false,
        }
    }

    // A byte by its two hexadecimal digits, and what stands behind them.
    fn put_byte(&mut self, piece: &[u8]) {
        match (byte_of(piece), piece.get(3..)) {
            (Some(byte), Some(rest)) => {
                self.put(&[byte]);
                self.put(rest);
            }
            _ => self.whole = false,
        }
    }

    fn put_escaped(&mut self, piece: &[u8]) {
        match piece.first() {
            Some(b'n') => self.put_behind(b"\n", piece),
            Some(b'r') => self.put_behind(b"\r", piece),
            Some(b't') => self.put_behind(b"\t", piece),
            Some(b'x') => self.put_byte(piece),
            _ => self.whole = false,
        }
    }

    // A text that repeats nothing. Between two backslashes is nothing where they stand for one.
    fn put_plain(&mut self, text: &str) {
        let mut is_plain = true;
        for piece in text.split('\\') {
            if is_plain {
                self.put(piece.as_bytes());
                is_plain = false;
            } else if piece.is_empty() {
                self.put(b"\\");
                is_plain = true;
            } else {
                self.put_escaped(piece.as_bytes());
            }
        }
    }

    // The number of a turn, between two pieces.
    fn put_number(&mut self, alloc: Global, before: &Made, turn: u32, after: &Made) {
        self.put(before.bytes.as_slice());
        match turn.to_string(alloc) {
            Ok(number) => self.put(number.as_bytes()),
            Err(_) => self.whole = false,
        }
        self.put(after.bytes.as_slice());
    }

    // The numbers from 1 on, each between two pieces.
    fn put_numbers(&mut self, alloc: Global, before: &str, after: &str, times: u32) {
        let before = Made::plain(alloc, before);
        let after = Made::plain(alloc, after);
        for time in 0..times {
            self.put_number(alloc, &before, time.wrapping_add(1), &after);
        }
        self.whole = self.whole && before.whole && after.whole;
    }

    fn put_copies(&mut self, alloc: Global, text: &str, times: u32) {
        let piece = Made::plain(alloc, text);
        for _ in 0..times {
            self.put(piece.bytes.as_slice());
        }
        self.whole = self.whole && piece.whole;
    }

    // What stands behind how often it is repeated.
    fn put_repeated(&mut self, alloc: Global, text: &str) {
        let (times, text) = text.split_once(' ').unwrap_or(("", text));
        let Ok(times) = times.parse::<u32>() else {
            self.whole = false;
            return;
        };
        match text.split_once("\\#") {
            Some((before, after)) => self.put_numbers(alloc, before, after, times),
            None => self.put_copies(alloc, text, times),
        }
    }

    // What is repeated, and what stands behind it.
    fn put_part(&mut self, alloc: Global, part: &str) {
        match part.split_once("\\)") {
            Some((repeated, rest)) => {
                self.put_repeated(alloc, repeated);
                self.put_plain(rest);
            }
            None => self.whole = false,
        }
    }
}

// The value of a hexadecimal digit.
fn digit_of(letter: u8) -> Option<u8> {
    match letter {
        b'0'..=b'9' => Some(letter - b'0'),
        b'a'..=b'f' => Some(letter - b'a' + 10),
        _ => None,
    }
}

// The byte of the two digits behind a letter.
fn byte_of(piece: &[u8]) -> Option<u8> {
    let high = digit_of(*piece.get(1)?)?;
    let low = digit_of(*piece.get(2)?)?;
    Some(high.wrapping_mul(16).wrapping_add(low))
}

/// The bytes that a text stands for, if its backslashes are followed by what may follow one.
pub(crate) fn bytes_of(alloc: Global, text: &str) -> Option<Vec<u8>> {
    let mut made = Made::new(alloc);
    let mut parts = text.split("\\(");
    if let Some(plain) = parts.next() {
        made.put_plain(plain);
    }
    for part in parts {
        made.put_part(alloc, part);
    }
    let Made { bytes, whole } = made;
    if whole { Some(bytes) } else { None }
}

/// The text that is written so.
pub(crate) fn text_of(alloc: Global, text: &str) -> Option<String> {
    String::from_utf8(bytes_of(alloc, text)?).ok()
}
