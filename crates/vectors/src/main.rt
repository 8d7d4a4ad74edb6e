// Replays what the oracle answered: reads cases from standard input, asks our functions, and counts the answers that differ.
// A section is a group (one byte: which crate is asked), a count (u32) and so many cases; a case is an op (one byte), an input
// and an answer, each behind its length (u32). Numbers are little-endian; vectors/README.md has the ops.
// Input that is cut short or too long for the buffers ends the replay and is told.
// What compares says in its contract what it compares. The functions `agrees` of the cases, and those here that call them, promise nothing:
// that would be the program's own comparison again. That each case is compared shows in the control.
#![tactic(auto)]

ghost use Rattle.std.specs.Prelude.{◌≡◌, ◌≢◌, drop, slice_index};
ghost use Rattle.vectors.specs.Tallies.{counted};

mod answers;
mod cases;
mod cells_cases;
mod chars_cases;
mod control;
mod cuts_cases;
mod escapes_cases;
mod input;
mod lines_cases;
mod listings_cases;
mod little;
mod logs_cases;
mod merges_cases;
mod numbers_cases;
mod packs;
mod values_cases;

use crate::cases::Case;
use crate::control::GROUP;
use crate::input::{read_number, read_text};
use crate::packs::{Lent, TableLengths};
use std::io;
use std::io::{Print, Read};

// A text of a case, and its buffer's length.
const LONGEST: usize = 140_000;

// How many cases were read, how many answers differ, the last case that does, counted from one, and whether the input had all of them.
#[derive(Clone, Copy)]
pub struct Tally {
    pub cases: u64,
    pub differ: u64,
    pub last: Option<u64>,
    pub whole: bool,
}

// What a case asks, and of which group and op. These are numbers and no enum, since they are bytes of the stored answers.
#[derive(Clone, Copy)]
struct Question<'a> {
    group: usize,
    op: usize,
    case: Case<'a>,
}

// What is asked: a case of the control names group and op before its input, and its own op says which look is to expect something wrong.
fn question_of(read: Question) -> Question
    ensures other { read.entry.group ≢ GROUP → result ≡ read.entry }
    ensures asked { read.entry.group ≡ GROUP → (result.group ≡ slice_index read.entry.case.input.now 0) × (result.op ≡ slice_index read.entry.case.input.now 1) }
    ensures input { read.entry.group ≡ GROUP → result.case.input.now ≡ drop 2 read.entry.case.input.now }
    ensures answer { result.case.answer.now ≡ read.entry.case.answer.now }
    ensures wrong { read.entry.group ≡ GROUP → result.case.wrong ≡ read.entry.op }
{
    let Question { group, op, case } = read;
    if group != GROUP {
        return read;
    }
    Question {
        group: little::byte(case.input, 0) as usize,
        op: little::byte(case.input, 1) as usize,
        case: Case {
            wrong: op,
            ..case.behind(2)
        },
    }
}

// Does our function give this answer, with tables lent as the op says? Each case has data of its own, as in `asked`.
fn lent_asked(lent: &mut Lent, q: Question) -> bool {
    let Some(lengths) = TableLengths::by_op(q.op) else {
        return false;
    };
    match q.group {
        6 => lines_cases::agrees(lent, lengths, q.case),
        7 => logs_cases::agrees(lent, lengths, q.case),
        8 => listings_cases::agrees(lent, lengths, q.case),
        9 => merges_cases::agrees(lent, lengths, q.case),
        10 => cells_cases::agrees(lent, lengths, q.case),
        _ => false,
    }
}

// Does our function give this answer? Each case reads data of its own, so that a table of functions would be no plainer.
fn asked(lent: &mut Lent, q: Question) -> bool {
    match q.group {
        1 => chars_cases::agrees(q.op, q.case),
        2 => numbers_cases::agrees(q.op, q.case),
        3 => cuts_cases::agrees(q.op, q.case),
        4 => escapes_cases::agrees(q.op, q.case),
        5 => (q.op == 1) & values_cases::agrees(lent, q.case),
        _ => lent_asked(lent, q),
    }
}

// With a case more, which agrees or does not; none was read where the input is cut short.
fn counted(tally: Tally, same: Option<bool>) -> Tally
    ensures { result ≡ counted tally same }
{
    let Some(same) = same else {
        return Tally {
            whole: false,
            ..tally
        };
    };
    let cases = tally.cases.wrapping_add(1);
    if same {
        return Tally { cases, ..tally };
    }
    Tally {
        cases,
        differ: tally.differ.wrapping_add(1),
        last: Some(cases),
        ..tally
    }
}

// Reads one case of a group. Does its answer agree? None where the input has it not whole, or where it is too long; both texts are read all the
// same, each as far as its buffer holds it, and the next section begins behind that. One call serves the control and the others, so that a
// comparison that does nothing shows.
fn replay_case(
    reader: &mut impl Read,
    group: usize,
    input: &mut [u8; LONGEST],
    answer: &mut [u8; LONGEST],
    lent: &mut Lent,
) -> Option<bool> {
    let op = read_number(reader, 1);
    let given = read_text(reader, input);
    let expected = read_text(reader, answer);
    let case = Case {
        input: little::first_part(input, given?),
        answer: little::first_part(answer, expected?),
        wrong: 0,
    };
    let op = op?;
    Some(asked(lent, question_of(Question { group, op, case })))
}

fn replay_section(reader: &mut impl Read, group: usize, count: usize) -> Tally {
    let mut input = [0u8; LONGEST];
    let mut answer = [0u8; LONGEST];
    let mut lent = Lent::new();
    let mut tally = Tally {
        cases: 0,
        differ: 0,
        last: None,
        whole: true,
    };
    for _ in 0..count {
        let same = replay_case(reader, group, &mut input, &mut answer, &mut lent);
        tally = counted(tally, same);
        if !tally.whole {
            return tally;
        }
    }
    tally
}

fn report(rt: &impl Print, group: usize, tally: Tally) -> io::Result<()> {
    let Tally {
        cases,
        differ,
        last,
        whole,
    } = tally;
    print!(rt; "group {group}: {cases} cases, {differ} differ")?;
    if let Some(last) = last {
        print!(rt; ", last case {last}")?;
    }
    if !whole {
        print!(rt; ", cut short")?;
    }
    println!(rt)
}

fn main(rt: HostRuntime) {
    let mut reader = rt.stdin();
    for _ in 0..16 {
        let Some(group) = read_number(&mut reader, 1) else {
            return;
        };
        // Where the count is cut short, so is the first case.
        let count = read_number(&mut reader, 4).unwrap_or(1);
        let _ = report(&rt, group, replay_section(&mut reader, group, count));
    }
}
