// The code points that `escape_debug` writes as numbers, found by binary search, and how a character is written by them.
// Refuses nothing. `in_ranges` assumes that its table goes up, and `look_of` that it is lent the common scripts of here, and both tables of here
// or none, as their `requires` say.
#![tactic(auto)]

pub mod tables;

ghost use Rattle.std.specs.Prelude.{◌≡◌, ℕ, ◌≤◌, ◌<◌, get_or, length};
ghost use Rattle.ranges.specs.Ranges.{member, Ascending};
ghost use Rattle.ranges.specs.EscapedAnywhere.{escaped_anywhere};
ghost use Rattle.ranges.specs.FirstOnly.{first_only};
ghost use Rattle.ranges.specs.Look.{TablesLent, Settled};

// How a character beyond printable ASCII is written.
#[derive(Clone, Copy)]
pub enum Look {
    // \u{..}
    Number,
    // Its own bytes.
    Itself,
}

// Code points of common scripts that are in neither table: a text of these alone needs no table on the stack.
pub const COMMON: [u32; 28] = [
    161, 173, 174, 768, 931, 1155, 1162, 1328, 8208, 8232, 8592, 9258, 9312, 11124, 12289, 12330,
    12353, 12439, 12443, 12544, 12832, 42125, 44032, 55204, 65281, 65438, 127744, 128729,
];

// The tables of what is written as numbers, where they lie: wherever it stands, and as first character alone.
#[derive(Clone, Copy)]
pub struct HiddenTables<'a> {
    pub anywhere: &'a [u32],
    pub firsts: &'a [u32],
}

// The tables of `look_of`: `common` is that of here, which it asks by its constant; the hidden ones are those of here too, where they are lent. No
// `static` ones, which nobody would lend: `lent_both` (`proofs/Looks`), a theorem that has to stand, is of tables that are lent.
#[derive(Clone, Copy)]
pub struct EscapeTables<'a> {
    pub common: &'a [u32],
    pub hidden: Option<HiddenTables<'a>>,
}

// How many boundaries of the table are at most c.
fn boundaries_passed(table: &[u32], c: u32) -> usize
    requires { Ascending table.now }
    ensures within { result ≤ length table.now }
    ensures below { (k : ℕ) → k < result → get_or table.now k 0 ≤ c }
    ensures above { (k : ℕ) → result ≤ k → k < length table.now → c < get_or table.now k 0 }
{
    table.partition_point(|&boundary| boundary <= c)
}

// Is c in one of the table's ranges? Behind a start and before its end an odd number of boundaries is passed.
pub fn in_ranges(table: &[u32], c: u32) -> bool
    requires { Ascending table.now }
    ensures { result ≡ member table.now c }
{
    boundaries_passed(table, c) % 2 == 1
}

// The code points that are written as numbers wherever they stand, as a table for `look_of`.
// Each call lays the whole table on the stack: who asks for many code points does so once.
pub fn escaped_anywhere() -> [u32; 1490]
    ensures { result ≡ escaped_anywhere }
{
    tables::ESCAPED_ANYWHERE
}

// Those that are written as numbers only as first character.
pub fn first_only() -> [u32; 762]
    ensures { result ≡ first_only }
{
    tables::FIRST_ONLY
}

// How a character beyond printable ASCII is written by the tables; `None` only where the hidden ones are not lent. With a call for it a text
// beyond ASCII takes up to 1.6 times as long to spell.
#[inline(always)]
pub fn look_of(tables: &EscapeTables, c: u32, first: bool) -> Option<Look>
    requires { TablesLent tables.now × (127 ≤ c) }
    ensures { Settled tables.now.hidden first c result }
{
    if c < 161 {
        return Some(Look::Number);
    }
    // which is `tables.common`: of a table that the compiler knows it makes a search without a loop
    if in_ranges(&COMMON, c) {
        return Some(Look::Itself);
    }
    let hidden = tables.hidden?;
    if in_ranges(hidden.anywhere, c) {
        return Some(Look::Number);
    }
    if first && in_ranges(hidden.firsts, c) {
        return Some(Look::Number);
    }
    Some(Look::Itself)
}
