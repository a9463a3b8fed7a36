//! The grammar of formulas: from a text to its tokens, and from tokens to code.
//!
//! ```text
//! formula = NAME "~" [ "+" | "-" ] item { ( "+" | "-" ) item }
//! item    = "0" | "1" | "qss" "(" NAME "," NUMBER ")" | "offset" "(" arith ")" | product
//! sum     = [ "+" | "-" ] product { ( "+" | "-" ) product }
//! product = inter { "*" inter }
//! inter   = power { ":" power }
//! power   = atom [ "^" DIGITS ]
//! atom    = NAME | "factor" "(" NAME ")" | "I" "(" arith ")" | "." | "(" sum ")"
//! arith   = [ "+" | "-" ] aprod { ( "+" | "-" ) aprod }
//! aprod   = apow { "*" apow }
//! apow    = aatom [ "^" DIGITS ]
//! aatom   = NAME | NUMBER | "(" arith ")"
//! ```
//!
//! No `qss` and no `offset` follows `-`. Spaces, tabs and line ends stand freely between tokens. A name starts with
//! an ASCII letter, or with `.` and then a letter, `.` or `_`, and goes on with letters, digits, `.`
//! and `_`; any text between backticks is one too. `factor`, `qss`, `I` and `offset` are names unless `(` follows.
//! A number is the longest number text that starts with a digit, or with `.` and a digit; DIGITS is
//! one of digits alone. This is R's formula language in the project's profile, with the smooths of
//! Koenker, Ng and Portnoy (1994).
//!
//! `tokens_of` gives the tokens of a text, and `read` the code of the formula that they are: steps
//! in postfix order over a stack of lists of terms, the intercept, the smooths and the offsets. An
//! arithmetic is read as its tokens and as steps over a stack of fractions. Faults are looked for from
//! left to right, and the first is the answer:
//! - `Syntax` at the first token that no formula can have there; the end of the text counts as one;
//! - `TooDeep` at the 65th parenthesis that is open at once, those of `factor` and `qss` and of
//!   arithmetics included;
//! - `PowerRange` at an exponent whose value isn't 1 to 8;
//! - `NumberTooWide` at a lambda, or at a number of an arithmetic that is no exponent, that fractions of
//!   128 bits don't hold.
//!
//! The crate's one contract: `read` gives the code of the one formula that has these tokens, or
//! their first fault, as `specs/Grammar.antt`, `specs/Codes.antt` and `specs/Faults.antt` define
//! them. `one_formula` says that no tokens are those of two formulas, and `one_outcome` that the
//! tokens of a text are a formula or have one first fault, and never both; `formulas_keep_limits` that
//! no token of a formula passes a limit.
//!
//! A number token carries its value, a `Magnitude`: a fraction that isn't negative, since no sign
//! is part of a token. So a lambda and an exponent are read once.
//!
//! One loop over the bytes makes the tokens, and one loop over the tokens makes the code, with a
//! stack of its own: no call is nested more deeply for a deeper or longer formula.
//!
//! It stands on `frac_core`, for number texts, lists and `OutOfMemory`.
//! Its cases stand in `cases`.
//!
//! `formula_parser` calls it so:
//! ```text
//! let tokens = tokens_of(alloc, text)?;
//! let reading = read(alloc, tokens.as_slice())?;
//! ```
#![tactic(auto)]

mod arith_levels;
mod arith_reader;
mod fault;
mod laws;
mod levels;
mod lexer;
mod limits;
mod magnitude;
mod number;
mod reader;
mod reading;
mod token;

pub use fault::ReadFault;
pub use laws::{formulas_keep_limits, one_formula, one_outcome};
pub use lexer::tokens_of;
pub use magnitude::Magnitude;
pub use reader::read;
pub use reading::{ArithPart, ArithStep, Reading, SmoothPart, Step};
pub use token::{Kind, Numeral, Sign, Span, Token, Whole};
