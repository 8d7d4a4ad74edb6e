// Characters: UTF-8 read and written, White_Space, and a text trimmed at both ends.
// Every function answers on every input; bytes that are no character decode to none, and are never White_Space. `check_text` alone refuses: with
// 2 and 3 of document 01.
#![tactic(auto)]

ghost use Rattle.std.specs.Prelude.{◌≡◌, Bool, true, false, List, [], ◌∷◌, ℕ, ◌+◌, ◌≤◌, ◌<◌, length, get_or, drop, IfSome, MatchOption, option_copied};
ghost use Rattle.std.specs.Fn.{FnReturnsAt};
ghost use Rattle.chars.specs.Utf8.{low as low_of, high as high_of, long_of, char_of, char_at, utf8, encode};
ghost use Rattle.chars.specs.White.{white, wide_white, white_at, trim_start, trim_end, trim as trimmed, blank};
ghost use Rattle.chars.specs.Post.{AllBytes, Plain, Advances, EndsIn, Spaces};
ghost use Rattle.chars.specs.Checked.{text_checked};

use buffers::Sink;
use format::{Log, Refusal};

// The byte at i, or 0 past the end, where no `Option` is needed: 0 continues no character.
fn byte_at(s: &[u8], i: usize) -> u32
    ensures { (result ≡ get_or s.now i 0) × (result < 256) }
{
    match s.get(i) {
        Some(&b) => u32::from(b),
        None => 0,
    }
}

// The second bytes behind the first byte a, from the least to the greatest. Two matches: of one that gives both ends the compiler makes a table of
// jumps, and texts of many scripts take up to a fifth longer.
#[tactic(auto, unfolding(crate::specs::Utf8::low, crate::specs::Utf8::high))]
fn second_bytes(a: u32) -> (u32, u32)
    ensures { (result.0 ≡ low_of a) × (result.1 ≡ high_of a) × (128 ≤ result.0) }
{
    let least = match a {
        0xe0 => 0xa0,
        0xf0 => 0x90,
        _ => 0x80,
    };
    let greatest = match a {
        0xed => 0x9f,
        0xf4 => 0x8f,
        _ => 0xbf,
    };
    (least, greatest)
}

// The character of two to four bytes whose first two are right: its code point, and how many bytes it takes.
fn long_char(a: u32, b: u32, c: u32, d: u32) -> Option<(u32, usize)>
    requires { (0xC2 ≤ a) × (a < 256) × (128 ≤ b) × (b < 256) × (c < 256) × (d < 256) }
    ensures { result ≡ long_of a b c d }
{
    match (a, c, d) {
        (..0xe0, _, _) => Some(((a - 0xc0) * 64 + (b - 0x80), 2)),
        (..0xf0, 0x80..=0xbf, _) => Some(((a - 0xe0) * 4096 + (b - 0x80) * 64 + (c - 0x80), 3)),
        (0xf0.., 0x80..=0xbf, 0x80..=0xbf) => Some((
            (a - 0xf0) * 262144 + (b - 0x80) * 4096 + (c - 0x80) * 64 + (d - 0x80),
            4,
        )),
        _ => None,
    }
}

// The character that four bytes begin with.
#[tactic(auto, unfolding(crate::specs::Utf8::char_of))]
#[inline(always)]
fn char_of(a: u32, b: u32, c: u32, d: u32) -> Option<(u32, usize)>
    requires { (a < 256) × (b < 256) × (c < 256) × (d < 256) }
    ensures { result ≡ char_of a b c d }
{
    match a {
        0..0x80 => Some((a, 1)),
        0xc2..=0xf4 => {
            let (least, greatest) = second_bytes(a);
            if b < least || greatest < b {
                return None;
            }
            long_char(a, b, c, d)
        }
        _ => None,
    }
}

// The character at a place: its code point, and how many bytes it takes. None where the text ends there, or the byte begins none.
// With a call for it or for `char_of`, which the compiler makes where many functions decode, `is_utf8` takes up to 1.6 times as long past
// ASCII.
#[tactic(auto, using(crate::proofs::Reading::char_here))]
#[inline(always)]
pub fn decode_char(s: &[u8], at: usize) -> Option<(u32, usize)>
    ensures { result ≡ char_at (drop at s.now) }
{
    if s.len() <= at {
        return None;
    }
    char_of(
        byte_at(s, at),
        byte_at(s, at + 1),
        byte_at(s, at + 2),
        byte_at(s, at + 3),
    )
}

// Puts two bytes.
fn append_two<S: Sink>(sink: &mut S, a: u8, b: u8)
    requires { S.room sink.old 2 }
    ensures { S.put sink.old (a ∷ b ∷ []) sink.new }
{
    sink.push(a);
    sink.push(b);
}

// Puts the character c. No `match`: the longer forms share their last bytes. `encode_utf8` takes a `char`, and a buffer of its own to copy from.
#[tactic(auto, using(crate::proofs::Writing::encodings))]
pub fn append_char<S: Sink>(sink: &mut S, c: u32)
    requires { (c < 0x110000) × S.room sink.old (length (encode c)) }
    ensures { S.put sink.old (encode c) sink.new }
{
    if c < 0x80 {
        return sink.push(c as u8);
    }
    let last = (0x80 + c % 64) as u8;
    if c < 0x800 {
        return append_two(sink, (0xc0 + c / 64) as u8, last);
    }
    let middle = (0x80 + c / 64 % 64) as u8;
    if c < 0x10000 {
        append_two(sink, (0xe0 + c / 4096) as u8, middle);
        return sink.push(last);
    }
    append_two(
        sink,
        (0xf0 + c / 262144) as u8,
        (0x80 + c / 4096 % 64) as u8,
    );
    append_two(sink, middle, last);
}

// How many bytes the character c takes, by `encode`, for any number; `append_char` asks for one below 0x110000.
#[tactic(auto, unfolding(crate::specs::Utf8::encode))]
pub fn char_length(c: u32) -> usize
    ensures { (result ≡ length (encode c)) × (result ≤ 4) }
{
    match c {
        0..0x80 => 1,
        0x80..0x800 => 2,
        0x800..0x10000 => 3,
        _ => 4,
    }
}

// No byte of s is above the answer.
fn greatest(s: &[u8]) -> u8
    ensures { (i : ℕ) → i < length s.now → get_or s.now i 0 ≤ result }
{
    s.iter().copied().max().unwrap_or(0)
}

// Past the blocks of N bytes from `at` on that pass a test. What the test says of each byte of a block holds of each byte passed.
fn blocks_end<const N: usize, F: Fn(&[u8]) -> bool>(s: &[u8], at: usize, passes: F) -> usize
    requires callable { F.IsAlwaysCallable passes }
    requires nonempty { 0 < N }
    requires start { at ≤ length s.now }
    ensures forward { at ≤ result }
    ensures inside { result ≤ length s.now }
    ensures passed { (p : ℕ → Bool)
        → ((block : List ℕ) → FnReturnsAt F.Fn passes block true → AllBytes p block 0 (length block))
        → AllBytes p s.now at result }
{
    match s[at..].chunks_exact(N).position(|block| !passes(block)) {
        Some(n) => at + n * N,
        None => at + (s.len() - at) / N * N,
    }
}

// Where the ASCII bytes from `at` on end, or `limit` where none ends them before it.
fn plain_end(s: &[u8], at: usize, limit: usize) -> usize
    requires { (at ≤ limit) × (limit ≤ length s.now) }
    ensures { Plain s.now at result × (result ≤ limit) }
{
    buffers::find_from(&s[..limit], at, |b| 0x7f < b)
}

// Where the ASCII bytes from `at` on end: short runs byte by byte, and blocks only where a run is long.
fn ascii_end(s: &[u8], at: usize) -> usize
    requires { at ≤ length s.now }
    ensures { Plain s.now at result × (result ≤ length s.now) }
{
    let n = s.len();
    if n - at < 16 {
        return plain_end(s, at, n);
    }
    let near = at + 16;
    let first = plain_end(s, at, near);
    if first < near {
        return first;
    }
    let far = blocks_end::<64, _>(s, near, |block| greatest(block) <= 0x7f);
    plain_end(s, far, n)
}

// The width of the two-byte character at a place whose first byte is past ASCII and below 0xe0.
#[tactic(auto, using(crate::proofs::Runs::two_good))]
fn two_bytes(s: &[u8], at: usize) -> Option<usize>
    requires { (at < length s.now) × (128 ≤ get_or s.now at 0) × (get_or s.now at 0 < 224) }
    ensures { MatchOption result (Advances s.now at 0) (λ n. (0 < n) × Advances s.now at n) }
{
    match s.get(at + 1) {
        Some(0x80..=0xbf) if 0xc2 <= s[at] => Some(2),
        _ => None,
    }
}

// How many bytes from `at` on are surely whole characters: a run of ASCII, or one character.
#[tactic(auto, using(crate::proofs::Reading::advance_char))]
fn advance(s: &[u8], at: usize) -> Option<usize>
    requires { at < length s.now }
    ensures { MatchOption result (Advances s.now at 0) (λ n. (0 < n) × Advances s.now at n) }
{
    match s[at] {
        0..0x80 => Some(ascii_end(s, at + 1) - at),
        0x80..0xe0 => two_bytes(s, at),
        _ => {
            let (_, n) = decode_char(s, at)?;
            Some(n)
        }
    }
}

// Is the text UTF-8? The library's `str::from_utf8` promises by another definition than `specs/Utf8`, which is written from the document.
// It takes a third fewer instructions on long ASCII, and a quarter more where a character has two bytes.
pub fn is_utf8(s: &[u8]) -> bool
    ensures { result ≡ utf8 s.now }
{
    let mut at: usize = 0;
    // no `for`: a character of up to four bytes, or a run of ASCII, is passed in one step
    while at < s.len() {
        match advance(s, at) {
            Some(n) => at += n,
            None => return false,
        }
    }
    true
}

// Is the code point c White_Space? ASCII is decided first. Not by `char::is_whitespace`, for which c would be made a `char`, and whose contract
// is over a list of the library's, where ours is over the one of the documents.
#[tactic(auto, using(crate::proofs::Ending::not_wide), unfolding(crate::specs::White::white))]
fn is_white(c: u32) -> bool
    ensures { result ≡ white c }
{
    match c {
        0x9..=0xd | 0x20 => true,
        0..0x85 => false,
        _ => is_wide_white(c),
    }
}

// The same of a code point that is not ASCII.
#[tactic(auto, unfolding(crate::specs::White::wide_white))]
fn is_wide_white(c: u32) -> bool
    ensures { result ≡ wide_white c }
{
    matches!(
        c,
        0x85 | 0xa0 | 0x1680 | 0x2000..=0x200a | 0x2028 | 0x2029 | 0x202f | 0x205f | 0x3000
    )
}

// Is there a byte, in ASCII and past the space? No White_Space character begins or ends with such a byte.
fn is_past_space(b: Option<&u8>) -> bool
    ensures { result ≡ true → MatchOption (option_copied b.entry) ⊥ (λ a. (32 < a) × (a < 128)) }
{
    matches!(b, Some(b'!'..=0x7f))
}

// How many bytes the White_Space character takes that the text begins with. A space, and what comes behind it in ASCII, is decided in place. Beside
// `white_end`, which says why.
#[tactic(auto, using(crate::proofs::Ending::white_empty, crate::proofs::Spacing::begins_at, crate::proofs::Spacing::begins_space))]
pub fn white_width(s: &[u8]) -> Option<usize>
    ensures value { MatchOption result (white_at s.now ≡ 0) (λ n. (0 < n) × (white_at s.now ≡ n)) }
    ensures upper_bound { IfSome result (λ n. n ≤ length s.now) }
{
    match s.first() {
        None => None,
        b if is_past_space(b) => None,
        Some(b' ') => Some(1),
        Some(_) => wide_width(s),
    }
}

// The same, by decoding the character.
#[tactic(auto, using(crate::proofs::Reading::char_whole, crate::proofs::Reading::nonempty), unfolding(crate::specs::White::white_at))]
fn wide_width(s: &[u8]) -> Option<usize>
    ensures value { MatchOption result (white_at s.now ≡ 0) (λ n. (0 < n) × (white_at s.now ≡ n)) }
    ensures upper_bound { IfSome result (λ n. n ≤ length s.now) }
{
    match decode_char(s, 0) {
        Some((c, n)) if is_white(c) => Some(n),
        _ => None,
    }
}

// How many bytes the White_Space character takes that the text ends in. A space, and what comes behind it in ASCII, is decided in place. It
// shares three arms with `white_width`; a function for both would take what looks at an end, and what decodes there, as closures.
#[tactic(auto, using(crate::proofs::Spacing::ends_at, crate::proofs::Spacing::ends_space))]
fn white_end(s: &[u8]) -> Option<usize>
    ensures { MatchOption result (EndsIn s.now 0) (λ n. (0 < n) × EndsIn s.now n) }
{
    match s.last() {
        None => None,
        b if is_past_space(b) => None,
        Some(b' ') => Some(1),
        Some(_) => wide_end(s),
    }
}

// The same, by decoding the last bytes. None takes more than three.
fn wide_end(s: &[u8]) -> Option<usize>
    requires { 1 ≤ length s.now }
    ensures { MatchOption result (EndsIn s.now 0) (λ n. (0 < n) × EndsIn s.now n) }
{
    for n in 1..=s.len().min(3) {
        if wide_width(&s[s.len() - n..]) == Some(n) {
            return Some(n);
        }
    }
    None
}

// Does s begin with one space and a byte past it?
#[tactic(auto, using(crate::proofs::Spacing::one_space))]
fn begins_with_one(s: &[u8]) -> bool
    ensures { result ≡ true → (1 ≤ length s.now) × (trim_start s.now ≡ drop 1 s.now) }
{
    match s {
        [b' ', rest @ ..] => is_past_space(rest.first()),
        _ => false,
    }
}

// Is there anything but spaces among these bytes? Every byte is looked at and nothing jumps, so that the compiler takes many at a time:
// `any`, which stops at the first, takes 20 % longer on blank lines.
#[tactic(auto, using(crate::proofs::Spacing::spaces_more))]
fn others_in(s: &[u8]) -> bool
    ensures { result ≡ false → Spaces s.now (length s.now) }
{
    let mut others = false;
    for &b in s {
        others = others | (b != b' ');
    }
    others
}

// Past the spaces at the start.
fn spaces_end(s: &[u8]) -> usize
    ensures { Spaces s.now result × (result ≤ length s.now) }
{
    let far = blocks_end::<16, _>(s, 0, |block| !others_in(block));
    buffers::find_from(s, far, |b| b != b' ')
}

// Without the White_Space at the start, character by character behind the spaces.
#[tactic(auto, using(crate::proofs::Trimming::trim_start_stays))]
fn strip_start(s: &[u8]) -> &[u8]
    ensures { result.now ≡ trim_start s.now }
{
    let mut t = &s[spaces_end(s)..];
    // no `for`: a character of up to four bytes is passed in one step
    while let Some(n) = white_width(t) {
        t = &t[n..];
    }
    t
}

// Without the White_Space at the end, character by character.
fn strip_end(s: &[u8]) -> &[u8]
    ensures { result.now ≡ trim_end s.now }
{
    let mut t = s;
    // no `for`: a character of up to four bytes is passed in one step
    while let Some(n) = white_end(t) {
        t = &t[..t.len() - n];
    }
    t
}

// Without the White_Space at both ends.
fn strip(s: &[u8]) -> &[u8]
    ensures { result.now ≡ trimmed s.now }
{
    strip_end(strip_start(s))
}

// Without the White_Space at the start. Most texts begin with none, or with one space: these are answered in place.
#[tactic(auto, using(crate::proofs::Trimming::trim_start_stays, crate::proofs::Spacing::begins_at))]
pub fn trim_start(s: &[u8]) -> &[u8]
    ensures { result.now ≡ trim_start s.now }
{
    if is_past_space(s.first()) {
        return s;
    }
    if begins_with_one(s) {
        return &s[1..];
    }
    strip_start(s)
}

// Without the White_Space at the end.
#[tactic(auto, using(crate::proofs::Spacing::trim_end_past))]
pub fn trim_end(s: &[u8]) -> &[u8]
    ensures { result.now ≡ trim_end s.now }
{
    if is_past_space(s.last()) {
        return s;
    }
    strip_end(s)
}

// Without the White_Space at both ends: `str::trim`.
#[tactic(auto, using(crate::proofs::Spacing::trim_past))]
pub fn trim(s: &[u8]) -> &[u8]
    ensures { result.now ≡ trimmed s.now }
{
    if is_past_space(s.first()) && is_past_space(s.last()) {
        return s;
    }
    strip(s)
}

// Is there nothing but White_Space?
#[tactic(auto, using(crate::proofs::Spacing::begins_at, crate::proofs::Spacing::past_not_blank))]
pub fn is_blank(s: &[u8]) -> bool
    ensures { result ≡ blank s.now }
{
    !is_past_space(s.first()) && strip(s).is_empty()
}

// The limits on a whole text, in the order in which they are refused: its length, and that it is UTF-8.
pub fn check_text(s: &[u8]) -> Result<(), Refusal>
    ensures { result ≡ text_checked s.now }
{
    if !Log::text_fits(s.len()) {
        return Err(Refusal::TextTooLong);
    }
    if !is_utf8(s) {
        return Err(Refusal::NotUtf8);
    }
    Ok(())
}

// A line without the White_Space at both ends; none where there is nothing else. An empty line is answered in place: a log may have many.
pub fn trim_line(s: &[u8]) -> Option<&[u8]>
    ensures { MatchOption result (blank s.now ≡ true) (λ t. (blank s.now ≡ false) × (t.now ≡ trimmed s.now)) }
{
    if s.len() == 0 {
        return None;
    }
    let start = trim_start(s);
    if start.len() == 0 {
        return None;
    }
    Some(trim_end(start))
}
