//! What the line of each fault says: its group, its name and its fields.
ghost use Rattle.std.specs.Prelude.{◌≡◌, ◌++◌, IfOk};
ghost use Rattle.report_text.specs.FaultText.{certificate_line, design_line, formula_line, halt_line, penalty_line, program_line, refusal_line, rejection_line, table_line, usage_line, fault_line as line_of};

use crate::line::Field::{Fraction, Fractions, Length, Name, Number, Place, Position, Spill};
use crate::page::Page;
use crate::report::{Fault, Halt, Refusal};
use cert_checker::Rejection;
use cert_text::CertFault;
use data_frame::TableFault;
use design_matrix::DesignFault;
use formula_parser::FormulaFault;
use frac_core::OutOfMemory;
use rq_program::ProgramFault;
use rq_words::WordFault;
use std::alloc::Global;
use tv_penalty::PenaltyFault;

/// The line of a failing source.
pub const SOURCE_LINE: &[u8] = b"quantreg: source: SourceFault\n";

/// The line of a failing sink.
pub const SINK_LINE: &[u8] = b"quantreg: sink: SinkFault\n";

/// The line of want of memory.
pub const MEMORY_LINE: &[u8] = b"quantreg: memory: OutOfMemory\n";

/// The line of a fault. It refuses only for memory.
pub fn fault_line(alloc: Global, fault: &Fault) -> Result<Vec<u8>, OutOfMemory>
    ensures { IfOk result (λ bytes. bytes.items ≡ line_of fault.now) }
{
    let mut page = Page::new(alloc);
    match fault {
        Fault::Usage(fault) => page.usage_line(fault),
        Fault::Source => page.put(SOURCE_LINE),
        Fault::Sink => page.put(SINK_LINE),
        Fault::Halt(halt) => page.halt_line(halt),
    }
    page.finish()
}

impl Page {
    #[tactic(auto, unfolding(crate::specs::FaultText::usage_line))]
    fn usage_line(&mut self, fault: &WordFault)
        ensures { self.new ≡ self.old ++ usage_line fault.now }
    {
        match fault {
            WordFault::NoJob => self.line(b"usage", b"NoJob", &[]),
            WordFault::UnknownJob => self.line(b"usage", b"UnknownJob", &[]),
            WordFault::BadOption => self.line(b"usage", b"BadOption", &[]),
            WordFault::BadNumber { option } => {
                self.line(b"usage", b"BadNumber", &[Name(b"option", option)])
            }
            WordFault::BadRange => self.line(b"usage", b"BadRange", &[]),
            WordFault::BadTauForRank => self.line(b"usage", b"BadTauForRank", &[]),
            WordFault::NegativeLimit => self.line(b"usage", b"NegativeLimit", &[]),
            WordFault::BadContrasts => self.line(b"usage", b"BadContrasts", &[]),
            WordFault::RankHalf => self.line(b"usage", b"RankHalf", &[]),
            WordFault::OutOfMemory => self.put(MEMORY_LINE),
            WordFault::NotAscending => self.line(b"usage", b"NotAscending", &[]),
        }
    }

    #[tactic(auto, unfolding(crate::specs::FaultText::table_line))]
    fn table_line(&mut self, fault: &TableFault)
        ensures { self.new ≡ self.old ++ table_line fault.now }
    {
        match fault {
            TableFault::NoHeader => self.line(b"table", b"NoHeader", &[]),
            TableFault::NotUtf8 { rec } => {
                self.line(b"table", b"NotUtf8", &[Number(b"record", *rec)])
            }
            TableFault::Ragged { rec, found, wanted } => {
                self.line(
                    b"table",
                    b"Ragged",
                    &[
                        Number(b"record", *rec),
                        Number(b"found", *found),
                        Number(b"wanted", *wanted),
                    ],
                )
            }
            TableFault::DoubleName { column } => {
                self.line(b"table", b"DoubleName", &[Position(b"column", *column)])
            }
            TableFault::EmptyName { column } => {
                self.line(b"table", b"EmptyName", &[Position(b"column", *column)])
            }
            TableFault::TooManyColumns => self.line(b"table", b"TooManyColumns", &[]),
            TableFault::TooManyRows => self.line(b"table", b"TooManyRows", &[]),
            TableFault::OutOfMemory => self.put(MEMORY_LINE),
        }
    }

    #[tactic(auto, unfolding(crate::specs::FaultText::formula_line))]
    fn formula_line(&mut self, fault: &FormulaFault)
        ensures { self.new ≡ self.old ++ formula_line fault.now }
    {
        match fault {
            FormulaFault::Syntax { offset } => {
                self.line(b"formula", b"Syntax", &[Number(b"offset", *offset)])
            }
            FormulaFault::UnknownName { offset } => {
                self.line(b"formula", b"UnknownName", &[Number(b"offset", *offset)])
            }
            FormulaFault::TooDeep { offset } => {
                self.line(b"formula", b"TooDeep", &[Number(b"offset", *offset)])
            }
            FormulaFault::TooManyTerms { offset } => {
                self.line(b"formula", b"TooManyTerms", &[Number(b"offset", *offset)])
            }
            FormulaFault::PowerRange { offset } => {
                self.line(b"formula", b"PowerRange", &[Number(b"offset", *offset)])
            }
            FormulaFault::NumberTooWide { offset } => {
                self.line(b"formula", b"NumberTooWide", &[Number(b"offset", *offset)])
            }
            FormulaFault::OutOfMemory => self.put(MEMORY_LINE),
        }
    }

    #[tactic(auto, unfolding(crate::specs::FaultText::design_line))]
    fn design_line(&mut self, fault: &DesignFault)
        ensures { self.new ≡ self.old ++ design_line fault.now }
    {
        match fault {
            DesignFault::UnknownWeights => self.line(b"design", b"UnknownWeights", &[]),
            DesignFault::ResponseNotNumeric => self.line(b"design", b"ResponseNotNumeric", &[]),
            DesignFault::WeightNotNumeric => self.line(b"design", b"WeightNotNumeric", &[]),
            DesignFault::NumberTooWide { rec, column } => {
                self.line(
                    b"design",
                    b"NumberTooWide",
                    &[Number(b"record", *rec), Name(b"column", column)],
                )
            }
            DesignFault::NegativeWeight { rec } => {
                self.line(b"design", b"NegativeWeight", &[Number(b"record", *rec)])
            }
            DesignFault::NoRows => self.line(b"design", b"NoRows", &[]),
            DesignFault::OneLevel { factor } => {
                self.line(b"design", b"OneLevel", &[Name(b"factor", factor)])
            }
            DesignFault::NoColumns => self.line(b"design", b"NoColumns", &[]),
            DesignFault::TooManyColumns => self.line(b"design", b"TooManyColumns", &[]),
            DesignFault::Overflow(spill) => self.line(b"design", b"Overflow", &[Spill(spill)]),
            DesignFault::ArithNotNumeric { name } => {
                self.line(b"design", b"ArithNotNumeric", &[Name(b"name", name)])
            }
            DesignFault::UnknownLevel { rec, factor } => {
                self.line(
                    b"design",
                    b"UnknownLevel",
                    &[Number(b"record", *rec), Name(b"factor", factor)],
                )
            }
            DesignFault::OutOfMemory => self.put(MEMORY_LINE),
        }
    }

    #[tactic(auto, unfolding(crate::specs::FaultText::penalty_line))]
    fn penalty_line(&mut self, fault: &PenaltyFault)
        ensures { self.new ≡ self.old ++ penalty_line fault.now }
    {
        match fault {
            PenaltyFault::NotNumeric { name } => {
                self.line(b"penalty", b"NotNumeric", &[Name(b"name", name)])
            }
            PenaltyFault::TooFewKnots { name } => {
                self.line(b"penalty", b"TooFewKnots", &[Name(b"name", name)])
            }
            PenaltyFault::Overflow(spill) => self.line(b"penalty", b"Overflow", &[Spill(spill)]),
            PenaltyFault::TooManyColumns => self.line(b"penalty", b"TooManyColumns", &[]),
            PenaltyFault::OutOfMemory => self.put(MEMORY_LINE),
        }
    }

    #[tactic(auto, unfolding(crate::specs::FaultText::program_line))]
    fn program_line(&mut self, fault: &ProgramFault)
        ensures { self.new ≡ self.old ++ program_line fault.now }
    {
        match fault {
            ProgramFault::TooManyRows => self.line(b"program", b"TooManyRows", &[]),
            ProgramFault::TooManyColumns => self.line(b"program", b"TooManyColumns", &[]),
            ProgramFault::OutOfMemory => self.put(MEMORY_LINE),
        }
    }

    #[tactic(auto, unfolding(crate::specs::FaultText::certificate_line))]
    fn certificate_line(&mut self, fault: &CertFault)
        ensures { self.new ≡ self.old ++ certificate_line fault.now }
    {
        match fault {
            CertFault::NotJson => self.line(b"certificate", b"NotJson", &[]),
            CertFault::Shape { path } => self.line(
                b"certificate",
                b"Shape",
                &[Name(b"path", path)],
            ),
            CertFault::Number { path } => {
                self.line(b"certificate", b"Number", &[Name(b"path", path)])
            }
            CertFault::Version => self.line(b"certificate", b"Version", &[]),
            CertFault::TooLarge => self.line(b"certificate", b"TooLarge", &[]),
            CertFault::OutOfMemory => self.put(MEMORY_LINE),
        }
    }

    #[tactic(auto, unfolding(crate::specs::FaultText::rejection_line))]
    fn rejection_line(&mut self, rejection: &Rejection)
        ensures { self.new ≡ self.old ++ rejection_line rejection.now }
    {
        self.line(
            b"check",
            b"Rejected",
            &[
                Number(b"condition", rejection.condition as u32),
                Number(b"index", rejection.index),
                Number(b"inner", rejection.inner),
                Fraction(b"left", &rejection.left),
                Fraction(b"right", &rejection.right),
            ],
        )
    }

    fn refusal_line(&mut self, refusal: &Refusal)
        ensures { self.new ≡ self.old ++ refusal_line refusal.now }
    {
        match refusal {
            Refusal::TooLong => self.line(b"input", b"TooLong", &[]),
            Refusal::Table(fault) => self.table_line(fault),
            Refusal::Formula(fault) => self.formula_line(fault),
            Refusal::RankWithPenalty => self.line(b"rank", b"RankWithPenalty", &[]),
            Refusal::Design(fault) => self.design_line(fault),
            Refusal::Penalty(fault) => self.penalty_line(fault),
            Refusal::Program(fault) => self.program_line(fault),
            Refusal::Dependent { combination } => {
                self.line(
                    b"solver",
                    b"Dependent",
                    &[Fractions(b"combination", combination.as_slice())],
                )
            }
            Refusal::CertTooLong { length } => {
                self.line(
                    b"certificate",
                    b"CertTooLong",
                    &[Length(b"length", *length)],
                )
            }
            Refusal::Certificate(fault) => self.certificate_line(fault),
            Refusal::NoSuchColumn { column } => {
                self.line(b"test", b"NoSuchColumn", &[Number(b"column", *column)])
            }
            Refusal::AllTested => self.line(b"test", b"AllTested", &[]),
            Refusal::SmoothNotTaken => self.line(b"job", b"SmoothNotTaken", &[]),
            Refusal::NothingToPredict => self.line(b"predict", b"NothingToPredict", &[]),
            Refusal::TooManyPredictions { found } => {
                self.line(
                    b"predict",
                    b"TooManyPredictions",
                    &[Number(b"found", *found)],
                )
            }
        }
    }

    fn halt_line(&mut self, halt: &Halt)
        ensures { self.new ≡ self.old ++ halt_line halt.now }
    {
        match halt {
            Halt::Refused(refusal) => self.refusal_line(refusal),
            Halt::OutOfMemory => self.put(MEMORY_LINE),
            Halt::PivotLimit { place, limit, .. } => {
                self.line(
                    b"solver",
                    b"PivotLimit",
                    &[Place(b"place", *place), Number(b"limit", *limit)],
                )
            }
            Halt::Overflow { place, spill, .. } => {
                self.line(
                    b"solver",
                    b"Overflow",
                    &[Place(b"place", *place), Spill(spill)],
                )
            }
            Halt::Rejected(rejection) => self.rejection_line(rejection),
        }
    }
}
