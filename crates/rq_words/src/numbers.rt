//! The numbers of a command's options.
ghost use Rattle.std.specs.Prelude.{◌≡◌, ◌⊎◌, ◌≤◌, true, false, [], Err, Some, None, IfOk, IfNone, IfSome, OnSome, option_map, map};
ghost use Rattle.std.specs.Result.{result_map_both, result_ok};
ghost use Rattle.std.specs.Char.{is_ascii_digit};
ghost use Rattle.std.specs.List.{list_all};
ghost use Rattle.std.specs.Str.Parse.{digits_value};
ghost use Rattle.frac_core.specs.Values.{exact};
ghost use Rattle.rq_words.specs.Requests.{option_numbers};
ghost use Rattle.rq_words.specs.Words.{column_numbers, count, given, has_digits, number_option, number_text, numbers_of, over_all, quantiles, unranked};

use crate::WordFault;
use crate::options::Options;
use frac_core::{Exact, Frac128, List, MOST_ROWS, OutOfMemory, Text, read_number};
use std::alloc::Global;

/// The numbers of the options; where one isn't given, what stands for it.
#[derive(Drop)]
pub(crate) struct Numbers {
    pub lo: Frac128,
    pub hi: Frac128,
    pub crit: Option<Frac128>,
    pub taus: Option<List<Frac128>>,
    pub limit: u32,
    pub number: u32,
    pub rows: u32,
    pub columns: u32,
    pub tested: List<u32>,
    pub tau: Frac128,
}

/// The whole numbers of an option: how many digits they have at most, and their bounds.
#[derive(Clone, Copy)]
struct Bounds {
    places: usize,
    least: u32,
    most: u32,
}

const PIVOTS: Bounds = Bounds {
    places: 8,
    least: 0,
    most: 10_000_000,
};

const NUMBER: Bounds = Bounds {
    places: 10,
    least: 0,
    most: u32::MAX,
};

const ROWS: Bounds = Bounds {
    places: 5,
    least: 1,
    most: MOST_ROWS,
};

const COLUMNS: Bounds = Bounds {
    places: 3,
    least: 1,
    most: 100,
};

const TESTED: Bounds = Bounds {
    places: 3,
    least: 0,
    most: 999,
};

fn bad_number(alloc: Global, option: &str) -> WordFault
    ensures { (result ≡ WordFault.OutOfMemory) ⊎ (result ≡ WordFault.BadNumber option.now) }
{
    match Text::new(alloc, option) {
        Ok(option) => WordFault::BadNumber { option },
        Err(_) => WordFault::OutOfMemory,
    }
}

#[tactic(auto, unfolding(crate::specs::Words::number_text))]
fn fraction(text: &str) -> Option<Frac128>
    ensures { option_map exact result ≡ number_text text.now }
{
    read_number(text).ok()
}

fn fraction_or(
    alloc: Global,
    options: &Options,
    name: &str,
    other: Frac128,
) -> Result<Frac128, WordFault>
    ensures { (result ≡ Err WordFault.OutOfMemory)
        ⊎ (result_map_both exact (λ e. e) result
        ≡ number_option options.now name.now (exact other) number_text) }
{
    match options.get(name) {
        None => Ok(other),
        Some(text) => match fraction(text) {
            Some(value) => Ok(value),
            None => Err(bad_number(alloc, name)),
        },
    }
}

fn fraction_if_given(
    alloc: Global,
    options: &Options,
    name: &str,
) -> Result<Option<Frac128>, WordFault>
    ensures { (result ≡ Err WordFault.OutOfMemory)
        ⊎ (result_map_both (option_map exact) (λ e. e) result
        ≡ number_option options.now name.now None (given number_text)) }
{
    match options.get(name) {
        None => Ok(None),
        Some(text) => match fraction(text) {
            Some(value) => Ok(Some(value)),
            None => Err(bad_number(alloc, name)),
        },
    }
}

// The most quantiles that rank intervals are asked for at.
const MOST_QUANTILES: usize = 64;

// The quantiles between commas, `None` where one is none or there are too many.
fn quantiles(alloc: Global, text: &str) -> Result<Option<List<Frac128>>, OutOfMemory>
    ensures { IfOk result (λ found. option_map (map exact) found ≡ quantiles text.now) }
{
    let mut taus = List::new(alloc);
    for piece in text.split(',') {
        if taus.as_slice().len() == MOST_QUANTILES {
            return Ok(None);
        }
        let Some(tau) = fraction(piece) else {
            return Ok(None);
        };
        taus.add(tau)?;
    }
    Ok(Some(taus))
}

fn quantiles_if_given(
    alloc: Global,
    options: &Options,
    name: &str,
) -> Result<Option<List<Frac128>>, WordFault>
    ensures { (result ≡ Err WordFault.OutOfMemory)
        ⊎ (result_map_both (option_map (map exact)) (λ e. e) result
        ≡ number_option options.now name.now None (given quantiles)) }
{
    match options.get(name) {
        None => Ok(None),
        Some(text) => match quantiles(alloc, text) {
            Ok(Some(taus)) => Ok(Some(taus)),
            Ok(None) => Err(bad_number(alloc, name)),
            Err(OutOfMemory) => Err(WordFault::OutOfMemory),
        },
    }
}

// The number of one digit or more, `None` where the text isn't that or has more of them.
fn digits(text: &str, places: usize) -> Option<u64>
    requires { places ≤ 10 }
    ensures none { IfNone result (has_digits places text.now ≡ false) }
    ensures some { OnSome result (has_digits places text.now ≡ true) }
    ensures value { IfSome result (λ n. n ≡ digits_value 10 text.now) }
{
    if text.len() > places || !all_digits(text) {
        return None;
    }
    text.parse::<u64>().ok()
}

fn all_digits(text: &str) -> bool
    ensures { result ≡ list_all is_ascii_digit text.now }
{
    text.bytes().all(|b| b.is_ascii_digit())
}

// A whole number within the bounds, `None` where the text isn't one.
#[tactic(auto, unfolding(crate::specs::Words::count))]
fn count(text: &str, bounds: Bounds) -> Option<u32>
    requires { bounds.places ≤ 10 }
    ensures { result ≡ count bounds.places bounds.least bounds.most text.now }
{
    match digits(text, bounds.places) {
        Some(n) if u64::from(bounds.least) <= n && n <= u64::from(bounds.most) => Some(n as u32),
        _ => None,
    }
}

fn count_or(
    alloc: Global,
    options: &Options,
    name: &str,
    bounds: Bounds,
    other: u32,
) -> Result<u32, WordFault>
    requires { bounds.places ≤ 10 }
    ensures { (result ≡ Err WordFault.OutOfMemory)
        ⊎ (result
        ≡ number_option options.now name.now other (count bounds.places bounds.least bounds.most)) }
{
    match options.get(name) {
        None => Ok(other),
        Some(text) => match count(text, bounds) {
            Some(value) => Ok(value),
            None => Err(bad_number(alloc, name)),
        },
    }
}

// The most columns that are tested.
const MOST_TESTED: usize = 128;

// The numbers of columns between commas, `None` where one is none or there are too many.
fn column_numbers(alloc: Global, text: &str) -> Result<Option<List<u32>>, OutOfMemory>
    ensures { IfOk result (λ found. found ≡ column_numbers text.now) }
{
    let mut columns = List::new(alloc);
    for piece in text.split(',') {
        if columns.as_slice().len() == MOST_TESTED {
            return Ok(None);
        }
        let Some(column) = count(piece, TESTED) else {
            return Ok(None);
        };
        columns.add(column)?;
    }
    Ok(Some(columns))
}

fn column_numbers_or_none(
    alloc: Global,
    options: &Options,
    name: &str,
) -> Result<List<u32>, WordFault>
    ensures { (result ≡ Err WordFault.OutOfMemory)
        ⊎ (result ≡ number_option options.now name.now [] column_numbers) }
{
    match options.get(name) {
        None => Ok(List::new(alloc)),
        Some(text) => match column_numbers(alloc, text) {
            Ok(Some(columns)) => Ok(columns),
            Ok(None) => Err(bad_number(alloc, name)),
            Err(OutOfMemory) => Err(WordFault::OutOfMemory),
        },
    }
}

impl Numbers {
    /// Reads the numbers, the first fault in their order.
    #[tactic(auto, unfolding(crate::specs::Words::numbers_of))]
    pub fn read(alloc: Global, options: &Options) -> Result<Numbers, WordFault>
        ensures { (result ≡ Err WordFault.OutOfMemory)
            ⊎ (result_map_both option_numbers (λ e. e) result ≡ numbers_of options.now) }
    {
        let lo = fraction_or(alloc, options, "lo", Frac128::zero())?;
        let hi = fraction_or(alloc, options, "hi", Frac128::one())?;
        let crit = fraction_if_given(alloc, options, "crit")?;
        let taus = quantiles_if_given(alloc, options, "rank-at")?;
        let limit = count_or(alloc, options, "pivots", PIVOTS, 100_000)?;
        let number = count_or(alloc, options, "number", NUMBER, 0)?;
        let rows = count_or(alloc, options, "rows", ROWS, 0)?;
        let columns = count_or(alloc, options, "columns", COLUMNS, 0)?;
        let tested = column_numbers_or_none(alloc, options, "tested")?;
        let tau = fraction_or(alloc, options, "tau", Frac128::zero())?;
        Ok(Numbers {
            lo,
            hi,
            crit,
            taus,
            limit,
            number,
            rows,
            columns,
            tested,
            tau,
        })
    }

    /// The same numbers over the range 0 to 1.
    pub fn over_all(self) -> Numbers
        ensures { option_numbers result ≡ over_all (option_numbers self) }
    {
        Numbers {
            lo: Frac128::zero(),
            hi: Frac128::one(),
            ..self
        }
    }

    /// The same numbers without rank intervals.
    pub fn unranked(self) -> Numbers
        ensures { option_numbers result ≡ unranked (option_numbers self) }
    {
        Numbers {
            crit: None,
            taus: None,
            ..self
        }
    }
}
