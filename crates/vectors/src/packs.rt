// The pack tables that are lent, every entry 77, and what they then hold beside the oracle's pack.
ghost use Rattle.std.specs.Prelude.{◌≡◌, ◌↔◌, ◌≤◌, IsTrue, IsSome, IfSome, leb, replicate, take};
ghost use Rattle.format.specs.Limits.{tables_fit};
ghost use Rattle.vectors.specs.Answers.{HasPack};
ghost use Rattle.vectors.specs.Looks.{HoldsPack, used_by as used_of};

use crate::cases::Case;
use crate::{answers, control, little};
use format::{Log, Reach, Refusal};
use pack::View;

// Longer than what a call uses, so that a call that goes too far shows.
pub const KINDS: usize = Log::NODES + 1;

pub const NUMBERS: usize = Log::NODES + 3;

pub const TEXTS: usize = Log::TEXTS + 7;

// How many first entries of each table are lent.
#[derive(Clone, Copy)]
pub struct TableLengths {
    pub kinds: usize,
    pub numbers: usize,
    pub texts: usize,
}

impl TableLengths {
    // Ops 1 to 5: longer than used, just so long as used, and an entry short of one.
    #[tactic(auto, unfolding(format::specs::Limits::tables_fit))]
    pub fn by_op(op: usize) -> Option<TableLengths>
        ensures some { IsSome result ↔ (1 ≤ op) × (op ≤ 5) }
        ensures fit { IfSome result (λ l. tables_fit l.kinds l.numbers l.texts ≡ leb op 2) }
        ensures within { IfSome result (λ l. (l.kinds ≤ KINDS) × (l.numbers ≤ NUMBERS) × (l.texts ≤ TEXTS)) }
    {
        let used = TableLengths {
            kinds: Log::NODES,
            numbers: Log::NODES,
            texts: Log::TEXTS,
        };
        let lengths = match op {
            1 => TableLengths {
                kinds: KINDS,
                numbers: NUMBERS,
                texts: TEXTS,
            },
            2 => used,
            3 => TableLengths {
                kinds: Log::NODES - 1,
                ..used
            },
            4 => TableLengths {
                numbers: Log::NODES - 1,
                ..used
            },
            5 => TableLengths {
                texts: Log::TEXTS - 1,
                ..used
            },
            _ => return None,
        };
        Some(lengths)
    }
}

// The tables. They are made once for a section and filled anew for each case: made for each, they would be copied once or twice.
#[derive(Drop)]
pub struct Lent {
    pub kinds: [u8; KINDS],
    pub numbers: [u64; NUMBERS],
    pub texts: [u8; TEXTS],
}

impl Lent {
    pub fn new() -> Lent
        ensures kinds { result.kinds ≡ replicate KINDS 77 }
        ensures numbers { result.numbers ≡ replicate NUMBERS 77 }
        ensures texts { result.texts ≡ replicate TEXTS 77 }
    {
        Lent {
            kinds: [77; KINDS],
            numbers: [77; NUMBERS],
            texts: [77; TEXTS],
        }
    }

    // As they were made, whatever a case has left in them.
    pub fn refill(&mut self)
        ensures kinds { self.new.kinds ≡ replicate KINDS 77 }
        ensures numbers { self.new.numbers ≡ replicate NUMBERS 77 }
        ensures texts { self.new.texts ≡ replicate TEXTS 77 }
    {
        self.kinds.fill(77);
        self.numbers.fill(77);
        self.texts.fill(77);
    }

    // What a call is lent: the first entries of each table.
    pub fn parts(&mut self, lengths: TableLengths) -> (&mut [u8], &mut [u64], &mut [u8])
        ensures kinds { result.0.now ≡ take lengths.kinds self.entry.now.kinds }
        ensures numbers { result.1.now ≡ take lengths.numbers self.entry.now.numbers }
        ensures texts { result.2.now ≡ take lengths.texts self.entry.now.texts }
    {
        let Lent {
            kinds,
            numbers,
            texts,
        } = self;
        (
            little::lent_part(kinds, lengths.kinds),
            little::lent_part(numbers, lengths.numbers),
            little::lent_part(texts, lengths.texts),
        )
    }

    // The entries before a reach.
    pub fn front(&self, reach: Reach) -> View<'_>
        ensures kinds { result.kinds.now ≡ take reach.nodes self.now.kinds }
        ensures numbers { result.numbers.now ≡ take reach.nodes self.now.numbers }
        ensures texts { result.texts.now ≡ take reach.texts self.now.texts }
    {
        View {
            kinds: little::first_part(&self.kinds, reach.nodes),
            numbers: little::first_part(&self.numbers, reach.nodes),
            texts: little::first_part(&self.texts, reach.texts),
        }
    }

    // Are the tables as a call with the case's answer leaves them: this pack, zeros as far as they are used, and behind that what was lent? An
    // empty text is a pack of no nodes, and no `Option`: what is compared with it is empty then.
    pub fn left_by(&self, case: Case, pack: &[u8]) -> bool
        ensures { IsTrue result ↔ HoldsPack self.now.kinds self.now.numbers self.now.texts pack.now (used_of case.entry.answer.now) case.entry.wrong }
    {
        let whole = View {
            kinds: &self.kinds,
            numbers: &self.numbers,
            texts: &self.texts,
        };
        hold(whole, case, pack, used_by(case.answer))
    }
}

// 1 and a pack of so many nodes and bytes of text: their counts in four bytes each, then kinds, numbers and texts.
pub fn is_pack(answer: &[u8], sizes: Reach) -> bool
    ensures { IsTrue result ↔ HasPack answer.now sizes }
{
    let nodes = little::four(answer, 1);
    let texts = little::four(answer, 5);
    (little::byte(answer, 0) == 1)
        & (nodes == sizes.nodes as u64)
        & (texts == sizes.texts as u64)
        & (answer.len() as u64 == 9 + nodes * 9 + texts)
}

// Do the tables hold a pack, zeros as far as they are used, and behind that what was lent?
pub fn hold(tables: View, case: Case, pack: &[u8], used: Reach) -> bool
    ensures { IsTrue result ↔ HoldsPack tables.entry.kinds.now tables.entry.numbers.now tables.entry.texts.now pack.now used case.entry.wrong }
{
    let nodes = little::four(pack, 0) as usize;
    let kinds = little::part(pack, 8, nodes);
    let numbers = little::part(pack, 8 + nodes, nodes * 8);
    let texts = little::rest_of(pack, 8 + nodes * 9);
    answers::bytes_hold(tables.kinds, kinds, case.look(control::KINDS, used.nodes))
        & answers::numbers_hold(
            tables.numbers,
            numbers,
            case.look(control::NUMBERS, used.nodes),
        )
        & answers::bytes_hold(tables.texts, texts, case.look(control::TEXTS, used.texts))
}

// How far a call with this answer uses the tables: not at all where it refuses them as too short.
fn used_by(answer: &[u8]) -> Reach
    ensures { result ≡ used_of answer.now }
{
    let too_short = answers::number(Refusal::TableTooShort);
    if (little::byte(answer, 0) == 0) & (little::byte(answer, 1) == too_short) {
        return Reach::default();
    }
    Reach {
        nodes: Log::NODES,
        texts: Log::TEXTS,
    }
}
