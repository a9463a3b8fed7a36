//! The halts of an input's faults.
ghost use Rattle.std.specs.Prelude.{◌≡◌};
ghost use Rattle.rq_input.specs.Halts.{design_halt as design_halt_of, formula_halt as formula_halt_of, penalty_halt as penalty_halt_of, program_halt as program_halt_of, table_halt as table_halt_of};

use data_frame::TableFault;
use design_matrix::DesignFault;
use formula_parser::FormulaFault;
use report_text::{Halt, Refusal};
use rq_program::ProgramFault;
use tv_penalty::PenaltyFault;

pub(crate) fn table_halt(fault: TableFault) -> Halt
    ensures { result ≡ table_halt_of fault }
{
    match fault {
        TableFault::OutOfMemory => Halt::OutOfMemory,
        fault => Halt::Refused(Refusal::Table(fault)),
    }
}

pub(crate) fn formula_halt(fault: FormulaFault) -> Halt
    ensures { result ≡ formula_halt_of fault }
{
    match fault {
        FormulaFault::OutOfMemory => Halt::OutOfMemory,
        fault => Halt::Refused(Refusal::Formula(fault)),
    }
}

pub(crate) fn design_halt(fault: DesignFault) -> Halt
    ensures { result ≡ design_halt_of fault }
{
    match fault {
        DesignFault::OutOfMemory => Halt::OutOfMemory,
        fault => Halt::Refused(Refusal::Design(fault)),
    }
}

pub(crate) fn penalty_halt(fault: PenaltyFault) -> Halt
    ensures { result ≡ penalty_halt_of fault }
{
    match fault {
        PenaltyFault::OutOfMemory => Halt::OutOfMemory,
        fault => Halt::Refused(Refusal::Penalty(fault)),
    }
}

pub(crate) fn program_halt(fault: ProgramFault) -> Halt
    ensures { result ≡ program_halt_of fault }
{
    match fault {
        ProgramFault::OutOfMemory => Halt::OutOfMemory,
        fault => Halt::Refused(Refusal::Program(fault)),
    }
}
