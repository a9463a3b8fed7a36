//! Cases of a text: what is asked of a run, and what it should leave.

/// What a run should leave: a printed report, or one that ends so, or nothing but an exit status with the line of a fault.
#[derive(Clone, Copy)]
pub(crate) enum Wanted<'a> {
    Report(&'a str),
    End(&'a str),
    Fault { status: u8, line: &'a str },
}

/// What a run reads: lines with semicolons between them; or the text that the cases of a file share, in which another one stands
/// between two pieces; or a text alone, in the notation of cases.
#[derive(Clone, Copy)]
pub(crate) enum Input<'a> {
    Lines(&'a str),
    Changed {
        before: &'a str,
        to: &'a str,
        after: &'a str,
    },
    Whole(&'a str),
}

/// The words of a run with bars between them, those of a run that reads what it has printed, where there is one, what it reads itself, and
/// what is left in the end.
#[derive(Clone, Copy)]
pub(crate) struct Case<'a> {
    pub words: &'a str,
    pub next: Option<&'a str>,
    pub input: Input<'a>,
    pub wanted: Wanted<'a>,
}

// The exit status and the line of a fault, where a text has both.
fn fault_of(text: &str) -> Option<Wanted<'_>> {
    let (status, line) = text.split_once(' ')?;
    let status = status.parse::<u8>().ok()?;
    Some(Wanted::Fault { status, line })
}

// What a text without its last end of a line says.
fn wanted_of(text: &str) -> Wanted<'_> {
    if let Some(end) = text.strip_prefix("..\n") {
        return Wanted::End(end);
    }
    match fault_of(text) {
        Some(fault) => fault,
        None => Wanted::Report(text),
    }
}

// What the line of a case says that is read. None, where what is changed isn't shared.
fn input_of<'a>(shared: &'a str, line: &'a str) -> Option<Input<'a>> {
    let Some((from, to)) = line.split_once(" => ") else {
        return Some(Input::Lines(line));
    };
    if from.is_empty() {
        return Some(Input::Whole(to));
    }
    let (before, after) = shared.split_once(from)?;
    Some(Input::Changed { before, to, after })
}

/// The text that the cases of a file share: the line above the first of them.
pub(crate) fn shared_of(text: &str) -> &str {
    let (above, _) = text.split_once("\n>").unwrap_or((text, ""));
    match above.rsplit_once('\n') {
        Some((_, line)) => line,
        None => above,
    }
}

/// The case of a text that begins with its words, and may end in a remark on the next one. None, where it lacks a line or changes what isn't
/// shared.
pub(crate) fn case_of<'a>(shared: &'a str, text: &'a str) -> Option<Case<'a>> {
    let (words, rest) = text.split_once('\n')?;
    let (line, rest) = rest.split_once('\n')?;
    let (wanted, _) = rest.split_once("\n#").unwrap_or((rest, ""));
    let words = words.trim_start();
    let (words, next) = match words.split_once(" => ") {
        Some((first, second)) => (first, Some(second)),
        None => (words, None),
    };
    Some(Case {
        words,
        next,
        input: input_of(shared, line)?,
        wanted: wanted_of(wanted.trim_end()),
    })
}
