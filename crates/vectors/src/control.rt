// The control: cases that must differ. Most have a wrong answer. In the others the answer is true, and one look at what was lent
// expects another value than it should. `wrong` says which look: 0 none, else the number of a table for its cleared entries,
// four more for its entries that are as they were lent, or what stands below. It is a number and no enum, since it is a byte of the stored
// answers.
ghost use Rattle.std.specs.Prelude.{◌≡◌};
ghost use Rattle.vectors.specs.Looks.{unwritten};

pub const GROUP: usize = 11;

pub const KINDS: usize = 1;

pub const NUMBERS: usize = 2;

pub const TEXTS: usize = 3;

// The output of a case that has one.
pub const OUTPUT: usize = 4;

// The tables of a cut: one that the places just fill is lent an entry shorter, one that is an entry short is lent longer.
pub const JUST_FULL: usize = 9;

pub const ONE_SHORT: usize = 10;

// A look at a table: its number, before which place its entries are cleared, and which look is to expect something wrong.
#[derive(Clone, Copy)]
pub struct Look {
    pub table: usize,
    pub used: usize,
    pub wrong: usize,
}

impl Look {
    // What an entry of the table is expected to hold that was not written: zero before the place `used`, and from there on what was lent.
    pub fn unwritten(self, at: usize) -> u64
        ensures { result ≡ unwritten self at }
    {
        if at < self.used {
            return (self.wrong == self.table) as u64;
        }
        if self.table.checked_add(4) == Some(self.wrong) {
            return 78;
        }
        77
    }
}
