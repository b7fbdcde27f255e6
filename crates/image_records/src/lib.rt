// The records of an image: a constant, a function's header, its runs, and where each ends.
#![tactic(auto)]

ghost use Rattle.std.specs.Prelude.{◌≡◌, ◌+◌, ◌*◌, ◌<◌, eqb, true, if◌then◌else◌};
ghost use Rattle.rules.specs.Chunk.{same_span};
ghost use Rattle.rules.specs.Reader.{many};
ghost use Rattle.rules.specs.ImageFile.{number_mark, string_mark, function_mark, constant_fields, read_constant, read_run, read_function};
ghost use Rattle.image_records.specs.Told.{constant_told, place_told, head_at, runs_told, code_told};

use fields::Mark;
use rules::Span;

#[derive(Drop)]
pub struct Header {
    pub upvalues: u16,
    pub constants: u16,
    pub runs: u32,
    pub code: u32,
}

impl Header {
    // how many bytes it has, its mark among them
    pub const BYTES: usize = 17;

    // where that of the first function stands, behind the image's mark and count
    pub const FIRST: usize = 6;
}

// A run's bytes, its mark among them.
const RUN_BYTES: usize = 11;

// No number's bits are above: no sign, no NaN. The rules' `max_bits`.
const MAX_BITS: u64 = 0x7FF0000000000000;

// Behind a number's mark. The three kinds stay apart: one function would take a width, a reader, a bound and a tag of each, which is no plainer.
#[tactic(auto, using(crate::proofs::Records::number_short, crate::proofs::Records::number_large, crate::proofs::Records::number_whole))]
fn number_at(s: &[u8], at: usize) -> Option<(u64, usize)>
    requires { at + 2 < 18446744073709551616 }
    ensures { result ≡ constant_told (constant_fields s.now number_mark (at + 2)) }
{
    if !fields::has(s, at, 10) {
        return None;
    }
    let bits = fields::u64_at(s, at + 2);
    if bits > MAX_BITS {
        return None;
    }
    Some((2 * bits, at + 10))
}

// Behind a string's mark.
#[tactic(auto, using(crate::proofs::Records::string_short, crate::proofs::Records::string_whole))]
fn string_at(s: &[u8], at: usize) -> Option<(u64, usize)>
    requires { at + 2 < 18446744073709551616 }
    ensures { result ≡ constant_told (constant_fields s.now string_mark (at + 2)) }
{
    if !fields::has(s, at, 4) {
        return None;
    }
    Some((4 * (fields::u16_at(s, at + 2) as u64) + 1, at + 4))
}

// Behind a function's mark.
#[tactic(auto, using(crate::proofs::Records::function_short, crate::proofs::Records::function_whole))]
fn function_at(s: &[u8], at: usize) -> Option<(u64, usize)>
    requires { at + 2 < 18446744073709551616 }
    ensures { result ≡ constant_told (constant_fields s.now function_mark (at + 2)) }
{
    if !fields::has(s, at, 6) {
        return None;
    }
    Some((4 * (fields::u32_at(s, at + 2) as u64) + 3, at + 6))
}

// A constant as one word, and the place after it.
pub fn constant(s: &[u8], at: usize) -> Option<(u64, usize)>
    ensures { result ≡ constant_told (read_constant s.now at) }
{
    if !fields::has(s, at, 2) {
        return None;
    }
    match fields::mark_at(s, at) {
        Mark::NUMBER_CONSTANT => number_at(s, at),
        Mark::STRING_CONSTANT => string_at(s, at),
        Mark::FUNCTION_CONSTANT => function_at(s, at),
        _ => None,
    }
}

// Where `n` constants end.
pub fn skip_constants(s: &[u8], begin: usize, n: usize) -> Option<usize>
    ensures { result ≡ place_told (many n (read_constant s.now) begin) }
{
    let mut at = begin;
    for _ in 0..n {
        let (_, next) = constant(s, at)?;
        at = next;
    }
    Some(at)
}

#[tactic(auto, unfolding(crate::specs::Told::head_at))]
pub fn head_of(s: &[u8], at: usize) -> Option<Header>
    ensures { result ≡ head_at s.now at }
{
    if !fields::has(s, at, Header::BYTES) {
        return None;
    }
    if fields::mark_at(s, at) != Mark::FUNCTION {
        return None;
    }
    Some(Header {
        upvalues: fields::u16_at(s, at + 5),
        constants: fields::u16_at(s, at + 7),
        runs: fields::u32_at(s, at + 9),
        code: fields::u32_at(s, at + 13),
    })
}

// Whether a run of `span` may stand behind one of `count` bytes and the span `last`: a span twice in a row only after a count of 255.
#[tactic(auto, unfolding(rules::specs::Chunk::same_span))]
fn follows(last: Span, count: u64, span: Span) -> bool
    ensures { result ≡ (if same_span last span then eqb count 255 else true) }
{
    count == 255 || span.start != last.start || span.end != last.end
}

// Where the run at `at` ends, whatever it says.
fn skip_run(s: &[u8], at: usize) -> Option<usize>
    ensures { result ≡ place_told (read_run s.now at) }
{
    if !fields::has(s, at, RUN_BYTES) {
        return None;
    }
    if fields::mark_at(s, at) != Mark::RUN {
        return None;
    }
    Some(at + RUN_BYTES)
}

// `n` runs, each of 1 to 255 bytes, a span twice in a row only after 255: the sum of their counts, and where they end.
pub fn runs(s: &[u8], begin: usize, n: usize) -> Option<(u64, usize)>
    requires { n < 4294967296 }
    ensures { result ≡ runs_told (many n (read_run s.now) begin) }
{
    let mut at = begin;
    let mut sum: u64 = 0;
    let mut last = Span { start: 0, end: 0 };
    let mut count: u64 = 255;
    for _ in 0..n {
        let next = skip_run(s, at)?;
        let span = fields::span_at(s, at + 2);
        let c = fields::u8_at(s, at + 10) as u64;
        if c == 0 {
            return None;
        }
        if !follows(last, count, span) {
            return None;
        }
        sum += c;
        last = span;
        count = c;
        at = next;
    }
    Some((sum, at))
}

// Where `n` runs end, whatever they say. The loops over constants, runs and functions stay apart: a trait with a type for each reader, and its
// law, is longer than they are.
pub fn skip_runs(s: &[u8], begin: usize, n: usize) -> Option<usize>
    ensures { result ≡ place_told (many n (read_run s.now) begin) }
{
    let mut at = begin;
    for _ in 0..n {
        at = skip_run(s, at)?;
    }
    Some(at)
}

// Where the code of `n` bytes begins whose mark is at `at`.
#[tactic(auto, unfolding(crate::specs::Told::code_told))]
pub fn code_at(s: &[u8], at: usize, n: usize) -> Option<usize>
    ensures { result ≡ code_told s.now n at }
{
    if !fields::has(s, at, 2) {
        return None;
    }
    if fields::mark_at(s, at) != Mark::CODE {
        return None;
    }
    if !fields::has(s, at + 2, n) {
        return None;
    }
    Some(at + 2)
}

// Where the function ends.
pub fn skip_function(s: &[u8], at: usize) -> Option<usize>
    ensures { result ≡ place_told (read_function s.now at) }
{
    let h = head_of(s, at)?;
    let runs_at = skip_constants(s, at + Header::BYTES, h.constants as usize)?;
    let mark_at = skip_runs(s, runs_at, h.runs as usize)?;
    let size = h.code as usize;
    let first = code_at(s, mark_at, size)?;
    Some(first + size)
}

// Where function `k` begins: behind the image's mark and count and the functions before it.
pub fn function_place(s: &[u8], k: usize) -> Option<usize>
    ensures { result ≡ place_told (many k (read_function s.now) 6) }
{
    let mut at: usize = Header::FIRST;
    for _ in 0..k {
        at = skip_function(s, at)?;
    }
    Some(at)
}
