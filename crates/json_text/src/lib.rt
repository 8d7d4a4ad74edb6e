// JSON texts by RFC 8259: is a text one, and the parts of one that is: white space, strings, numbers, the members of objects.
// Refuses nothing: what is no JSON is an answer. Every text is taken, UTF-8 or not; no function is recursive.
#![tactic(auto)]

ghost use Rattle.std.specs.Prelude.{◌≡◌, ◌+◌, ◌≤◌, ◌<◌, [], ℕ, length, drop, get_or, Some, true, false, is_some, IsSome, IfSome, option_map};
ghost use Rattle.buffers.specs.Same.{same};
ghost use Rattle.json_text.specs.Number.{behind_digits, behind_minus, behind_int, behind_frac, behind_exp, number};
ghost use Rattle.json_text.specs.Text.{short, hex4, low_half, unicode, escape, plain_run, string};
ghost use Rattle.json_text.specs.Syntax.{is_space, ws, scalar, first_part, next_part, behind_colon, member_name, json};
ghost use Rattle.json_text.specs.Post.{texts_of, behind, behind_word, text_in, char_of, next_of, texts_of_member, member_texts};
ghost use Rattle.json_text.specs.Walk.{closing, within_bracket, closes, right, StepsTo, bytes_ahead};
ghost use Rattle.json_text.specs.Matching.{match_room, Matched, match_laws};

use buffers::Sink;

// ---- white space

fn is_space(b: u8) -> bool
    ensures { result ≡ is_space b }
{
    matches!(b, b' ' | b'\t' | b'\n' | b'\r')
}

// The text behind the white space that it starts with.
pub fn skip_white(s: &[u8]) -> &[u8]
    ensures { result.now ≡ ws s.now }
{
    for i in 0..s.len() {
        if !is_space(s[i]) {
            return &s[i..];
        }
    }
    &s[s.len()..]
}

// ---- numbers

// The text behind digits, at least one.
fn behind_digits(s: &[u8]) -> Option<&[u8]>
    ensures { texts_of result ≡ behind_digits s.now }
{
    let end = numbers::digits_end(s, 0);
    if end == 0 {
        return None;
    }
    Some(&s[end..])
}

fn behind_minus(s: &[u8]) -> &[u8]
    ensures { result.now ≡ behind_minus s.now }
{
    match s {
        [b'-', rest @ ..] => rest,
        _ => s,
    }
}

fn behind_int(s: &[u8]) -> Option<&[u8]>
    ensures { texts_of result ≡ behind_int s.now }
{
    match s {
        [b'0', rest @ ..] => Some(rest),
        _ => behind_digits(s),
    }
}

fn behind_frac(s: &[u8]) -> Option<&[u8]>
    ensures { texts_of result ≡ behind_frac s.now }
{
    match s {
        [b'.', rest @ ..] => behind_digits(rest),
        _ => Some(s),
    }
}

fn behind_exp(s: &[u8]) -> Option<&[u8]>
    ensures { texts_of result ≡ behind_exp s.now }
{
    match s {
        [b'e' | b'E', b'+' | b'-', rest @ ..] => behind_digits(rest),
        [b'e' | b'E', rest @ ..] => behind_digits(rest),
        _ => Some(s),
    }
}

// The text behind the number that it starts with.
pub fn number_behind(s: &[u8]) -> Option<&[u8]>
    ensures { texts_of result ≡ number s.now }
{
    let digits = behind_minus(s);
    let point = behind_int(digits)?;
    let exp = behind_frac(point)?;
    behind_exp(exp)
}

// ---- strings

// A character that an escape stands for, and how many bytes the escape has behind its backslash.
#[derive(Clone, Copy)]
struct Escape {
    c: u32,
    size: usize,
}

// What the letter of a two-character escape stands for, at i.
#[tactic(auto, unfolding(crate::specs::Text::short))]
fn short_at(s: &[u8], i: usize) -> Option<u8>
    ensures { result ≡ short (get_or s.now i 0) }
{
    match *s.get(i)? {
        b'"' => Some(b'"'),
        b'\\' => Some(b'\\'),
        b'/' => Some(b'/'),
        b'b' => Some(0x08),
        b'f' => Some(0x0C),
        b'n' => Some(b'\n'),
        b'r' => Some(b'\r'),
        b't' => Some(b'\t'),
        _ => None,
    }
}

// The number of the four hex digits from the place `at` on.
fn hex4(s: &[u8], at: usize) -> Option<u32>
    requires { at ≤ length s.now }
    ensures value { result ≡ hex4 (drop at s.now) }
    ensures upper_bound { IfSome result (λ v. v < 65536) }
{
    let a = escapes::hex_at(s, at)?;
    let b = escapes::hex_at(s, at + 1)?;
    let c = escapes::hex_at(s, at + 2)?;
    let d = escapes::hex_at(s, at + 3)?;
    Some(((a * 16 + b) * 16 + c) * 16 + d)
}

// The low surrogate of a second escape, whose backslash stands at `at`.
fn low_half(s: &[u8], at: usize) -> Option<u32>
    requires { at ≤ length s.now }
    ensures value { result ≡ low_half (drop at s.now) }
    ensures bounds { IfSome result (λ v. (0xDC00 ≤ v) × (v < 0xE000)) }
{
    let [b'\\', b'u', ..] = &s[at..] else {
        return None;
    };
    let low = hex4(s, at + 2)?;
    if !matches!(low, 0xDC00..0xE000) {
        return None;
    }
    Some(low)
}

// What \u stands for, with the four hex digits at `at`, and behind a high surrogate a second escape.
fn unicode_at(s: &[u8], at: usize) -> Option<Escape>
    requires { at ≤ length s.now }
    ensures value { option_map char_of result ≡ unicode (drop at s.now) }
    ensures upper_bound { IfSome result (λ e. e.c < 0x110000) }
{
    let v = hex4(s, at)?;
    match v {
        0xD800..0xDC00 => {
            let low = low_half(s, at + 4)?;
            let c = 0x10000 + (v - 0xD800) * 0x400 + (low - 0xDC00);
            Some(Escape { c, size: 11 })
        }
        0xDC00..0xE000 => None,
        _ => Some(Escape { c: v, size: 5 }),
    }
}

// What the backslash before the place `at` begins.
fn escape_at(s: &[u8], at: usize) -> Option<Escape>
    requires { at ≤ length s.now }
    ensures value { option_map char_of result ≡ escape (drop at s.now) }
    ensures upper_bound { IfSome result (λ e. e.c < 0x110000) }
{
    if s.len() <= at {
        return None;
    }
    if s[at] == b'u' {
        return unicode_at(s, at + 1);
    }
    let c = short_at(s, at)? as u32;
    Some(Escape { c, size: 1 })
}

// The first place from `from` on with a quotation mark, a backslash or a control character, or the text's end.
fn plain_end(s: &[u8], from: usize) -> usize
    requires { from ≤ length s.now }
    ensures { result ≡ from + plain_run (drop from s.now) }
{
    for i in from..s.len() {
        let b = s[i];
        // most letters are told by one comparison
        if b'\\' < b {
            continue;
        }
        if b < 0x20 || b == b'"' || b == b'\\' {
            return i;
        }
    }
    s.len()
}

// The text behind a string, which s has behind its first quotation mark.
pub fn string_behind(s: &[u8]) -> Option<&[u8]>
    ensures { texts_of result ≡ behind (string s.now) }
{
    let mut i = plain_end(s, 0);
    // no `for`: a run or an escape is passed in one step
    while i < s.len() {
        if s[i] == b'"' {
            return Some(&s[i + 1..]);
        }
        if s[i] != b'\\' {
            return None;
        }
        let escape = escape_at(s, i + 1)?;
        i = plain_end(s, i + 1 + escape.size);
    }
    None
}

// Puts what a string stands for, which s has behind its first quotation mark. The answer is the text behind it.
pub fn decode<'a, S: Sink>(sink: &mut S, s: &'a [u8]) -> &'a [u8]
    requires { IsSome (string s.now) × S.room sink.old (length (text_in (string s.now))) }
    ensures wrote { S.put sink.old (text_in (string s.now)) sink.new }
    ensures rest { behind (string s.now) ≡ Some result.now }
{
    let mut here = sink.take();
    let mut i: usize = 0;
    // no `for`: a run or an escape is passed in one step
    while s[i] != b'"' {
        if s[i] != b'\\' {
            let stop = plain_end(s, i);
            here.append(&s[i..stop]);
            i = stop;
            continue;
        }
        let next = i + 1;
        let escape = escape_at(s, next).unwrap();
        chars::append_char(&mut here, escape.c);
        i = next + escape.size;
    }
    *sink = here;
    let end = i + 1;
    &s[end..]
}

// A word that a text is held against as the text comes, and whether they are equal so far.
#[derive(Drop)]
struct Match<'a> {
    left: &'a [u8],
    equal: bool,
}

impl Sink for Match<'_> {
    ghost room = { match_room };

    ghost put = { Matched };

    ghost laws = { match_laws };

    fn push(&mut self, b: u8) {
        if self.left.len() == 0 {
            self.equal = false;
            return;
        }
        self.equal = self.equal & (self.left[0] == b);
        self.left = &self.left[1..];
    }

    fn append(&mut self, s: &[u8]) {
        let n = s.len();
        if self.left.len() < n {
            self.equal = false;
            return;
        }
        self.equal = self.equal & buffers::same(&self.left[..n], s);
        self.left = &self.left[n..];
    }

    fn take(&mut self) -> Self {
        Match {
            left: self.left,
            equal: self.equal,
        }
    }
}

// Does a string stand for the word, which s has behind its first quotation mark? One without escapes is compared as it stands.
pub fn is_text(s: &[u8], word: &[u8]) -> bool
    requires { IsSome (string s.now) }
    ensures { result ≡ same (text_in (string s.now)) word.now }
{
    let n = plain_end(s, 0);
    if s[n] == b'"' {
        return buffers::same(&s[..n], word);
    }
    let mut matched = Match {
        left: word,
        equal: true,
    };
    decode(&mut matched, s);
    matched.equal && matched.left.len() == 0
}

// ---- values

// The text behind the word, where s begins with it.
fn word_behind<'a>(s: &'a [u8], word: &[u8]) -> Option<&'a [u8]>
    ensures { texts_of result ≡ behind_word word.now s.now }
{
    let n = word.len();
    if s.len() < n {
        return None;
    }
    if !buffers::same(&s[..n], word) {
        return None;
    }
    Some(&s[n..])
}

// The text behind a value that is no array and no object. Its first byte decides.
fn scalar_behind(s: &[u8]) -> Option<&[u8]>
    ensures { texts_of result ≡ behind (scalar s.now) }
{
    if s.len() == 0 {
        return None;
    }
    match s[0] {
        b'"' => string_behind(&s[1..]),
        b'n' => word_behind(s, b"null"),
        b't' => word_behind(s, b"true"),
        b'f' => word_behind(s, b"false"),
        _ => number_behind(s),
    }
}

// The text from the next part of an array or an object on, an item or a member, or the text behind the bracket that closes it.
#[derive(Clone, Copy)]
pub enum Next<'a> {
    Part(&'a [u8]),
    End(&'a [u8]),
}

// Behind the bracket that opens, where `close` is the one that closes.
pub fn first_part(s: &[u8], close: u8) -> Next<'_>
    requires { 0 < close }
    ensures { next_of result ≡ first_part close s.now }
{
    let t = skip_white(s);
    match t {
        [b, rest @ ..] if *b == close => Next::End(rest),
        _ => Next::Part(t),
    }
}

// Behind a part: a comma and the next one, or the bracket that closes.
pub fn next_part(s: &[u8], close: u8) -> Option<Next<'_>>
    requires { 0 < close }
    ensures { option_map next_of result ≡ next_part close s.now }
{
    match skip_white(s) {
        [b',', rest @ ..] => Some(Next::Part(skip_white(rest))),
        [b, rest @ ..] if *b == close => Some(Next::End(rest)),
        _ => None,
    }
}

// A member of an object: its name from behind the quotation mark on, and the text from its value on.
#[derive(Clone, Copy)]
pub struct Member<'a> {
    pub name: &'a [u8],
    pub value: &'a [u8],
}

// The text behind a colon, and behind the white space around it.
pub fn colon_behind(s: &[u8]) -> Option<&[u8]>
    ensures { texts_of result ≡ behind_colon s.now }
{
    match skip_white(s) {
        [b':', rest @ ..] => Some(skip_white(rest)),
        _ => None,
    }
}

// The member that a text starts with.
pub fn first_member(s: &[u8]) -> Option<Member<'_>>
    ensures { option_map texts_of_member result ≡ member_texts s.now (member_name s.now) }
{
    let [b'"', name @ ..] = s else {
        return None;
    };
    let rest = string_behind(name)?;
    let value = colon_behind(rest)?;
    Some(Member { name, value })
}

// ---- a whole text

// How far a text was walked: the rest, with so many brackets open, and whether a value stands there or one was passed.
#[derive(Clone, Copy)]
struct Step<'a> {
    rest: &'a [u8],
    depth: usize,
    value: bool,
}

fn closing(bracket: u8) -> u8
    ensures { result ≡ closing bracket }
{
    if bracket == b'[' {
        return b']';
    }
    b'}'
}

// In a bracket: the value of its next part, or its end. Inlined, as `open` and `close` are: as calls they take up to twice as long.
#[inline(always)]
fn enter<'a>(nesting: &mut [u8], depth: usize, bracket: u8, next: Next<'a>) -> Option<Step<'a>>
    requires { depth < length nesting.old }
    ensures steps { StepsTo (within_bracket bracket (closes nesting.old depth) (Some (next_of next.entry))) depth (bytes_ahead (next_of next.entry) + 1) nesting.new result }
    ensures kept { length nesting.new ≡ length nesting.old }
{
    match next {
        Next::End(rest) => Some(Step {
            rest,
            depth,
            value: false,
        }),
        Next::Part(part) => {
            nesting[depth] = bracket;
            let rest = if bracket == b'[' {
                part
            } else {
                first_member(part)?.value
            };
            Some(Step {
                rest,
                depth: depth + 1,
                value: true,
            })
        }
    }
}

// A value: the whole of one that is no array and no object, or the bracket that opens it.
#[inline(always)]
fn open<'a>(nesting: &mut [u8], depth: usize, s: &'a [u8]) -> Option<Step<'a>>
    requires { depth + length s.now ≤ length nesting.old }
    ensures steps { StepsTo (right true nesting.old depth s.now) depth (length s.now) nesting.new result }
    ensures kept { length nesting.new ≡ length nesting.old }
{
    match s {
        [b'[', items @ ..] => enter(nesting, depth, b'[', first_part(items, b']')),
        [b'{', members @ ..] => enter(nesting, depth, b'{', first_part(members, b'}')),
        _ => {
            let rest = scalar_behind(s)?;
            Some(Step {
                rest,
                depth,
                value: false,
            })
        }
    }
}

// Behind a value in a bracket.
#[inline(always)]
fn close<'a>(nesting: &mut [u8], depth: usize, s: &'a [u8]) -> Option<Step<'a>>
    requires { (0 < depth) × (depth + length s.now ≤ length nesting.old) }
    ensures steps { StepsTo (right false nesting.old depth s.now) depth (length s.now) nesting.new result }
    ensures kept { length nesting.new ≡ length nesting.old }
{
    let outer = depth - 1;
    let bracket = nesting[outer];
    let next = next_part(s, closing(bracket))?;
    enter(nesting, outer, bracket, next)
}

// Is the text JSON? Open brackets stand in `nesting` meanwhile, one for each byte at the most, so that no depth takes more of the call stack.
pub fn is_json(nesting: &mut [u8], s: &[u8]) -> bool
    requires { length s.now ≤ length nesting.old }
    ensures value { result ≡ is_some (json s.now) }
    ensures kept { length nesting.new ≡ length nesting.old }
{
    let mut step = Step {
        rest: skip_white(s),
        depth: 0,
        value: true,
    };
    // no `for`: a step is a value, a bracket or what follows either
    while step.value || step.depth > 0 {
        let next = if step.value {
            open(nesting, step.depth, step.rest)
        } else {
            close(nesting, step.depth, step.rest)
        };
        let Some(next) = next else {
            return false;
        };
        step = next;
    }
    skip_white(step.rest).len() == 0
}
