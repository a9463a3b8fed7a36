//! The numbers behind the cells of a generated table.
ghost use Rattle.std.specs.Prelude.{◌≡◌};
ghost use Rattle.table_maker.specs.Tables.{next_number, cell_of};

/// A linear congruential generator modulo 2^32 (Numerical Recipes in C, section 7.1).
#[derive(Drop)]
pub(crate) struct Generator {
    number: u32,
}

impl Generator {
    /// The generator at a number.
    pub(crate) fn new(number: u32) -> Generator
        ensures { result.number ≡ number }
    {
        Generator { number }
    }

    /// Steps to the next number, and gives its cell.
    pub(crate) fn next_cell(&mut self) -> u32
        ensures number { self.new.number ≡ next_number self.old.number }
        ensures cell { result ≡ cell_of (next_number self.old.number) }
    {
        let next = 1_664_525 * u64::from(self.number) + 1_013_904_223;
        self.number = (next % 4_294_967_296) as u32;
        self.number / 65_536 % 1000
    }
}
