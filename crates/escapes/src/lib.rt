// Escapes in a text: what they stand for. Entry point: `decode`.
// It refuses a text that is too long or not UTF-8, and an output that is too short; every other function answers on every text.
// Assumes nothing.
#![tactic(auto)]

ghost use Rattle.std.specs.Prelude.{Some, IfSome, ◌≡◌, false, ◌+◌, ◌-◌, ◌≤◌, ◌<◌, length, get_or, drop};
ghost use Rattle.escapes.specs.Unescape.{hex_digit, byte_of, if_scalar, char_or, escape_at, unescape};
ghost use Rattle.escapes.specs.Entry.{decoded, output_after};
ghost use Rattle.escapes.specs.Walk.{plain_run, braces, unnamed, numbered, unicode_at, short_of};

use buffers::{Count, Sink, Writer};
use format::Refusal;

// What a backslash begins.
#[derive(Clone, Copy)]
pub enum Escape {
    // An escape that stands for this code point; it takes so many bytes behind the backslash.
    Char(u32, usize),
    // No escape: the backslash and so many bytes behind it stand for themselves.
    Verbatim(usize),
}

// The value of the hex digit at i.
#[tactic(auto, unfolding(crate::specs::Unescape::hex_digit))]
pub fn hex_at(s: &[u8], i: usize) -> Option<u32>
    ensures value { result ≡ hex_digit (get_or s.now i 0) }
    ensures upper_bound { IfSome result (λ v. v < 16) }
{
    let b = *s.get(i)?;
    (b as char).to_digit(16)
}

// Past the place `at`, \u{..} names nothing: it stands for itself up to its }, or to the end. The u is at `from`. Not by `find_from`, whose
// length for none would have to be told from a place again, nor by `position`, whose answer counts from `at`.
fn stand(s: &[u8], from: usize, at: usize) -> Escape
    requires { (from ≤ at) × (at ≤ length s.now) }
    ensures { result ≡ braces unnamed (at - from) (drop at s.now) }
{
    for i in at..s.len() {
        if s[i] == b'}' {
            return Escape::Verbatim(i + 1 - from);
        }
    }
    Escape::Verbatim(s.len() - from)
}

// A number below 0x110000 as a character, unless it is a surrogate.
#[tactic(auto, unfolding(chars::specs::Utf8::scalar))]
fn char_or(v: u32, n: usize) -> Escape
    requires { v < 0x110000 }
    ensures { result ≡ char_or (if_scalar (Some v)) n }
{
    match char::from_u32(v) {
        Some(c) => Escape::Char(c as u32, n),
        None => Escape::Verbatim(n),
    }
}

// The digits of \u{..} from the place `at` on, with _ among them. The u is at `from`.
fn braced_number(s: &[u8], from: usize, at: usize) -> Escape
    requires { (from ≤ at) × (at ≤ length s.now) }
    ensures { result ≡ braces (numbered false 0) (at - from) (drop at s.now) }
{
    let mut value: Option<u32> = None;
    for i in at..s.len() {
        let b = s[i];
        if b == b'_' {
            continue;
        }
        if b == b'}' {
            let n = i + 1 - from;
            return match value {
                Some(v) => char_or(v, n),
                None => Escape::Verbatim(n),
            };
        }
        let Some(d) = hex_at(s, i) else {
            return stand(s, from, i);
        };
        let next = value.unwrap_or(0) * 16 + d;
        if 0x110000 <= next {
            return stand(s, from, i);
        }
        value = Some(next);
    }
    Escape::Verbatim(s.len() - from)
}

// \u{..}, its u at `from`: a _ must not come first, a + may. Without { it is no escape.
fn unicode_escape(s: &[u8], from: usize) -> Escape
    requires { from < length s.now }
    ensures { result ≡ unicode_at (drop from s.now) }
{
    let open = from + 1;
    if s.len() <= open {
        return Escape::Verbatim(0);
    }
    if s[open] != b'{' {
        return Escape::Verbatim(0);
    }
    let first = from + 2;
    if s.len() <= first {
        return Escape::Verbatim(2);
    }
    if s[first] == b'_' {
        return stand(s, from, first);
    }
    if s[first] == b'+' {
        return braced_number(s, from, first + 1);
    }
    braced_number(s, from, first)
}

// \x, its x at `from`: one hex digit or two.
fn byte_escape(s: &[u8], from: usize) -> Escape
    requires { from < length s.now }
    ensures { result ≡ byte_of (hex_digit (get_or s.now (from + 1) 0)) (hex_digit (get_or s.now (from + 2) 0)) }
{
    let Some(v) = hex_at(s, from + 1) else {
        return Escape::Verbatim(0);
    };
    let Some(w) = hex_at(s, from + 2) else {
        return Escape::Char(v, 2);
    };
    Escape::Char(v * 16 + w, 3)
}

// The code of the short escape whose letter stands at i.
#[tactic(auto, unfolding(crate::specs::Walk::short_of))]
fn short_at(s: &[u8], i: usize) -> Option<u8>
    ensures { result ≡ short_of (get_or s.now i 0) }
{
    match *s.get(i)? {
        b'0' => Some(b'\0'),
        b't' => Some(b'\t'),
        b'n' => Some(b'\n'),
        b'r' => Some(b'\r'),
        b'"' => Some(b'"'),
        b'\'' => Some(b'\''),
        b'\\' => Some(b'\\'),
        _ => None,
    }
}

// What the backslash at `at` begins.
fn escape_at(s: &[u8], at: usize) -> Escape
    requires { at < length s.now }
    ensures { result ≡ escape_at (drop (at + 1) s.now) }
{
    let next = at + 1;
    if s.len() <= next {
        return Escape::Verbatim(0);
    }
    if let Some(code) = short_at(s, next) {
        return Escape::Char(code as u32, 1);
    }
    if s[next] == b'x' {
        return byte_escape(s, next);
    }
    if s[next] == b'u' {
        return unicode_escape(s, next);
    }
    Escape::Verbatim(0)
}

// The place of the first backslash from `from` on, or the text's end.
fn plain_run(s: &[u8], from: usize) -> usize
    requires { from ≤ length s.now }
    ensures { result ≡ from + plain_run (drop from s.now) }
{
    // `position` costs up to 3.6 % more instructions
    for i in from..s.len() {
        if s[i] == b'\\' {
            return i;
        }
    }
    s.len()
}

// Puts what s stands for, where there is just room for it.
fn append_unescaped<S: Sink>(sink: &mut S, s: &[u8])
    requires { S.room sink.old (length (unescape s.now)) }
    ensures { S.put sink.old (unescape s.now) sink.new }
{
    let mut here = sink.take();
    let mut i: usize = 0;
    // no `for`: a run or an escape is passed in one step
    while i < s.len() {
        if s[i] != b'\\' {
            let stop = plain_run(s, i);
            here.append(&s[i..stop]);
            i = stop;
            continue;
        }
        // a short escape costs one look into a table here, and no `Escape` is made
        if let Some(code) = short_at(s, i + 1) {
            here.push(code);
            i += 2;
            continue;
        }
        match escape_at(s, i) {
            Escape::Char(c, n) => {
                chars::append_char(&mut here, c);
                i = i + 1 + n;
            }
            Escape::Verbatim(n) => {
                let stop = plain_run(s, i + 1 + n);
                here.append(&s[i..stop]);
                i = stop;
            }
        }
    }
    *sink = here;
}

// Puts what s stands for; a text never stands for a longer one. Beside `append_unescaped`, since callers know how long s is, and not how long
// what it stands for.
pub fn unescape<S: Sink>(sink: &mut S, s: &[u8])
    requires { S.room sink.old (length s.now) }
    ensures { S.put sink.old (unescape s.now) sink.new }
{
    append_unescaped(sink, s);
}

// Decodes the escapes of a text. The answer is how many bytes it stands for: they are the first of the output, whose rest is as it was.
// Refused, by the number of document 01: the text is over 65,536 bytes (2) or not UTF-8 (3), or the output is too short (5). The output is
// as it was then.
pub fn decode(out: &mut [u8], text: &[u8]) -> Result<usize, Refusal>
    ensures { (result ≡ decoded text.now (length out.old)) × (out.new ≡ output_after text.now out.old) }
{
    chars::check_text(text)?;
    let mut counted = Count { count: 0 };
    unescape(&mut counted, text);
    let n = counted.count;
    if out.len() < n {
        return Err(Refusal::OutputTooShort);
    }
    let mut writer = Writer { out, end: 0 };
    append_unescaped(&mut writer, text);
    Ok(n)
}
