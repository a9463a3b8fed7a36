//! Texts that contracts see as their bytes.
ghost use Rattle.std.specs.Prelude.{◌≡◌, IfOk};

use crate::OutOfMemory;
use std::alloc::Global;
use std::marker::Model;

/// UTF-8 text that contracts see as the list of its bytes.
#[derive(Drop)]
pub struct Text {
    contents: String,
}

impl Model for Text {
    ghost use Rattle.std.specs.Prelude.{List as list, ℕ, string_bytes};

    ghost Value = { list ℕ };

    ghost view = { λ a. string_bytes a.contents };
}

impl Text {
    /// A copy of a text.
    pub fn new(alloc: Global, text: &str) -> Result<Text, OutOfMemory>
        ensures { IfOk result (λ t. t ≡ text.now) }
    {
        match String::from_str(alloc, text) {
            Ok(contents) => Ok(Text { contents }),
            Err(_) => Err(OutOfMemory),
        }
    }

    /// The text itself.
    pub fn as_str(&self) -> &str
        ensures { result.now ≡ self.now }
    {
        self.contents.as_str()
    }
}

impl From<String> for Text {
    ghost use Rattle.std.specs.Prelude.{◌≡◌, string_bytes};

    ghost from_gives = { λ s t. t ≡ string_bytes s };

    /// The text of a string; it takes no memory.
    fn from(contents: String) -> Text {
        Text { contents }
    }
}
