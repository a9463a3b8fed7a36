//! The tables of codings: the entries by level and column, and the names of the columns.

ghost use Rattle.std.specs.Prelude.{◌≡◌, ◌<◌, length};

use crate::told::Told;
use contrasts::{Coding, entry, label, width};
use frac_core::Text;
use std::alloc::Global;

fn coding_of(word: &str) -> Option<Coding> {
    match word {
        "treatment" => Some(Coding::Treatment),
        "sas" => Some(Coding::Sas),
        "sum" => Some(Coding::Sum),
        "helmert" => Some(Coding::Helmert),
        "indicator" => Some(Coding::Indicator),
        _ => None,
    }
}

// The entries of a level.
fn tell_level(told: &mut Told, coding: Coding, level: u32)
    requires { level < 3 }
{
    for column in 0..width(coding, 3) {
        told.put(if column == 0 { "" } else { " " });
        told.put_debug(&entry(coding, 3, level, column));
    }
    told.put("; ");
}

fn levels_of(alloc: Global) -> Option<[Text; 3]> {
    let first = Text::new(alloc, "a").ok()?;
    let second = Text::new(alloc, "b").ok()?;
    let third = Text::new(alloc, "c").ok()?;
    Some([first, second, third])
}

fn tell_names(told: &mut Told, coding: Coding, levels: &[Text])
    requires { length levels.now ≡ 3 }
{
    for column in 0..width(coding, 3) {
        told.put(if column == 0 { "" } else { " " });
        match label(told.alloc(), coding, levels, "f", column) {
            Ok(name) => told.put(name.as_str()),
            Err(_) => told.put("no memory"),
        }
    }
}

/// Tells the table of a coding for three levels a, b and c of a factor f.
pub(crate) fn tell(told: &mut Told, asked: &str) {
    let Some(coding) = coding_of(asked) else {
        return told.put("no coding");
    };
    for level in 0..3 {
        tell_level(told, coding, level);
    }
    match levels_of(told.alloc()) {
        Some(levels) => tell_names(told, coding, &levels),
        None => told.put("no memory"),
    }
}
