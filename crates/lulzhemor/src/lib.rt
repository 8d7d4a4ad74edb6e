// The entry points for programs in Rust and C: numbers pass as themselves, a slice as its pointer and then its length, an array as its
// pointer. Each has the contract of the function that it calls, and refuses what that one refuses. An answer that is an enum there is a
// number here (specs/Answer.antt, specs/Calls.antt). Assumes that the caller owns what it lends, and lends no part of an output as an input.
#![tactic(auto)]

ghost use Rattle.std.specs.Prelude.{◌≡◌};
ghost use Rattle.chars.specs.Utf8.{utf8};
ghost use Rattle.lulzhemor.specs.Answer.{refused_answer, counted_answer, both_sizes};
ghost use Rattle.lulzhemor.specs.Calls.{CutCall, DecodeCall, SpellCall, ReadCall, EntitiesCall, JudgeCall, MergeCall, ListCall};

use format::{Log, Reach, Refusal};

// Refusal n is this number and n: no success is as large.
const REFUSED: u64 = 4_294_967_296;
// A line has an event, or is blank.
const EVENT: u64 = 1;

const BLANK: u64 = 0;
// A text of entities JSON has a pack.
const PACK: u64 = 1;
// The line of a refusal counts so many times: its number is less.
const PER_LINE: u64 = 256;
// The log of a refusal, where two are merged, counts 2^26 times: what its line counts is less.
const PER_LOG: u64 = 67_108_864;

// A refusal's answer where it speaks of no line.
fn refused(refusal: Refusal) -> u64
    ensures { result ≡ refused_answer refusal }
{
    REFUSED + (u8::from(refusal) as u64)
}

// What a count or a refusal answers.
fn counted(r: Result<usize, Refusal>) -> u64
    ensures { result ≡ counted_answer r }
{
    match r {
        Ok(count) => count as u64,
        Err(refusal) => refused(refusal),
    }
}

// A pack's sizes, as the array that is lent for them has them.
fn sizes_of(reach: Reach) -> [u64; Log::FRONT]
    ensures { result ≡ both_sizes reach }
{
    [reach.nodes as u64, reach.texts as u64]
}

// Is the text UTF-8?
#[unsafe(no_mangle)]
pub extern "C" fn lulzhemor_is_utf8(s: &[u8]) -> bool
    ensures { result ≡ utf8 s.now }
{
    chars::is_utf8(s)
}

// Cuts a body at its commas: how many cut, their places in the output's first entries; or a refusal, the output unchanged.
#[unsafe(no_mangle)]
pub extern "C" fn lulzhemor_cut_body(out: &mut [u64], body: &[u8]) -> u64
    ensures { CutCall body.now out.old result out.new }
{
    counted(cuts::cut_body(out, body))
}

// Decodes the escapes of a text: how many bytes it stands for, which are the output's first; or a refusal, the output unchanged.
#[unsafe(no_mangle)]
pub extern "C" fn lulzhemor_decode(out: &mut [u8], text: &[u8]) -> u64
    ensures { DecodeCall text.now out.old result out.new }
{
    counted(escapes::decode(out, text))
}

// Spells the key of a type text and a decoded id: how many bytes it has, which are the output's first; or a refusal, the output unchanged.
#[unsafe(no_mangle)]
pub extern "C" fn lulzhemor_spell_key(out: &mut [u8], ty: &[u8], id: &[u8]) -> u64
    ensures { SpellCall ty.now id.now out.old result out.new }
{
    counted(keys::spell_key(out, ty, id))
}

// Reads one line into a pack: EVENT where it has one, whose nodes and text bytes are then the two sizes; BLANK where it is blank; or a
// refusal. Only an event changes the sizes.
#[unsafe(no_mangle)]
pub extern "C" fn lulzhemor_read_line(
    kinds: &mut [u8],
    numbers: &mut [u64],
    texts: &mut [u8],
    sizes: &mut [u64; Log::FRONT],
    line: &[u8],
) -> u64
    ensures { ReadCall line.now kinds.old numbers.old texts.old sizes.old
        result kinds.new numbers.new texts.new sizes.new }
{
    match lines::read_line(kinds, numbers, texts, line) {
        Ok(Some(reach)) => {
            *sizes = sizes_of(reach);
            EVENT
        }
        Ok(None) => BLANK,
        Err(refusal) => refused(refusal),
    }
}

// Reads entities JSON into a pack: PACK, and the two sizes are its nodes and text bytes; or a refusal, and the sizes are unchanged.
#[unsafe(no_mangle)]
pub extern "C" fn lulzhemor_read_entities(
    kinds: &mut [u8],
    numbers: &mut [u64],
    texts: &mut [u8],
    sizes: &mut [u64; Log::FRONT],
    text: &[u8],
) -> u64
    ensures { EntitiesCall text.now kinds.old numbers.old texts.old sizes.old
        result kinds.new numbers.new texts.new sizes.new }
{
    match json_entities::read_entities(kinds, numbers, texts, text) {
        Ok(reach) => {
            *sizes = sizes_of(reach);
            PACK
        }
        Err(refusal) => refused(refusal),
    }
}

// Judges a log: how many events it has; or a refusal, and 256 times the line where it was met.
#[unsafe(no_mangle)]
pub extern "C" fn lulzhemor_judge(
    kinds: &mut [u8],
    numbers: &mut [u64],
    texts: &mut [u8],
    log: &[u8],
) -> u64
    ensures { JudgeCall log.now kinds.old numbers.old texts.old
        result kinds.new numbers.new texts.new }
{
    match logs::judge(kinds, numbers, texts, log) {
        Ok(events) => events as u64,
        Err(r) => refused(r.refusal) + PER_LINE * (r.line as u64),
    }
}

// Merges two logs: how many bytes the merged log has, which are the output's first; or a refusal, 256 times the line where it was met and
// 2^26 times the log, 1 or 2, or 0 where it is neither, the output unchanged.
#[unsafe(no_mangle)]
pub extern "C" fn lulzhemor_merge(
    kinds: &mut [u8],
    numbers: &mut [u64],
    texts: &mut [u8],
    out: &mut [u8],
    first: &[u8],
    second: &[u8],
) -> u64
    ensures { MergeCall first.now second.now kinds.old numbers.old texts.old out.old
        result kinds.new numbers.new texts.new out.new }
{
    match merging::merge(kinds, numbers, texts, out, first, second) {
        Ok(size) => size as u64,
        Err(r) => refused(r.refusal) + PER_LINE * (r.line as u64) + PER_LOG * (r.log as u64),
    }
}

// Lists one line's event, its number handed in: how many bytes the listing has, which are the output's first; 0 where the line is blank;
// or a refusal, the output unchanged.
#[unsafe(no_mangle)]
pub extern "C" fn lulzhemor_list_line(
    kinds: &mut [u8],
    numbers: &mut [u64],
    texts: &mut [u8],
    out: &mut [u8],
    line: &[u8],
    number: u64,
) -> u64
    ensures { ListCall line.now number kinds.old numbers.old texts.old out.old
        result kinds.new numbers.new texts.new out.new }
{
    match listing::list_line(kinds, numbers, texts, out, line, number) {
        Ok(Some(count)) => count as u64,
        Ok(None) => 0,
        Err(refusal) => refused(refusal),
    }
}
