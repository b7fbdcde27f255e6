// Whether an image names a global: after the check, one walk over its instructions that leaves at the first that does.
#![tactic(auto)]

ghost use Rattle.std.specs.Prelude.{Some, ◌≡◌, true, ℕ, ◌+◌, ◌<◌, ◌≤◌, length, get_or, drop};
ghost use Rattle.rules.specs.Touch.{names_global};
ghost use Rattle.rules.specs.Touch as Touch;
ghost use Rattle.image_code.specs.Forms as Forms;
ghost use Rattle.image_code.specs.declared.Kind.TheVariants.{Missing};
ghost use Rattle.image_code.specs.Table.{kinds_in, instruction_at, from, instructions, is_some};
ghost use Rattle.image_constants.specs.Words.{constants_of};
ghost use Rattle.rules.specs.ImageFile.{read_function};
ghost use Rattle.image_constants.specs.Earlier.{earlier};
ghost use Rattle.image_touch.specs.Walked.{of_function, walked, First, ConstantsKnown, is_right, Stepped, Sound};

use answers::{accepted, refused};
use image_code::Kind;
use image_constants::Earlier;
use image_records::Header;
use op::Op;
use rules::{Answer, Refusal};

// Where the first instruction stands that names the global, if one does, and how many instructions were read then.
#[derive(Drop)]
pub struct Found {
    pub at: Option<usize>,
    pub read: usize,
}

#[tactic(auto, unfolding(rules::specs::Touch::names_global))]
fn names_global(op: u8) -> bool
    ensures { result ≡ names_global op }
{
    op == Op::GET_GLOBAL || op == Op::SET_GLOBAL || op == Op::DEFINE_GLOBAL
}

// Whether the instruction at `at`, which is within the code, names the global. The words are the constants.
fn touches(code: &[u8], at: usize, kinds: &[Kind; 256], words: &[u64], name: u16) -> bool
    requires at_in_bounds { at < length code.now }
    requires nonzero { 0 < Forms.width (kinds_in kinds.now) (get_or code.now at 0) (drop (at + 1) code.now) }
    requires code_in_bounds { at + Forms.width (kinds_in kinds.now) (get_or code.now at 0) (drop (at + 1) code.now) ≤ length code.now }
    ensures { result ≡ Touch.touches name (of_function (constants_of (length words.now) words.now) (instruction_at (kinds_in kinds.now) code.now at)) }
{
    if !names_global(code[at]) {
        return false;
    }
    let place = code[at + 1] as usize;
    if place >= words.len() {
        return false;
    }
    words[place] == 4 * (name as u64) + 1
}

// A code that divides, after `before` instructions.
fn walk(code: &[u8], kinds: &[Kind; 256], words: &[u64], name: u16, before: usize) -> Found
    requires { (is_some (from (kinds_in kinds.now) code.now 0 0) ≡ true) × (before + length code.now < 18446744073709551616) }
    ensures value { result ≡ walked name before (constants_of (length words.now) words.now) (instructions (from (kinds_in kinds.now) code.now 0 0)) }
    ensures read_bound { (result.read ≤ before + length code.now) × ((place : ℕ) → result.at ≡ Some place → place ≤ length code.now) }
{
    let mut at: usize = 0;
    let mut read = before;
    // no range or iterator has steps as long as the instruction that each stands at
    while at < code.len() {
        let w = image_code::width_at(code, at, kinds);
        let seen = read + 1;
        if touches(code, at, kinds, words, name) {
            return Found {
                at: Some(at),
                read: seen,
            };
        }
        read = seen;
        at += w;
    }
    Found { at: None, read }
}

// What operands can name of the `n` constants of the next function: the first as words, and their kinds; and where all of them end.
fn constants(
    known: &Earlier,
    at: usize,
    n: usize,
    words: &mut [u64],
    kinds: &mut [Kind; 256],
) -> Option<usize>
    requires first { First n (length words.old) }
    requires kinds_len { (length kinds.old ≡ 256) × ((p : ℕ) → get_or kinds.old p Missing ≡ Missing) }
    ensures { ConstantsKnown known.now.s.now known.now.k at n (length words.old) result words.new kinds.new }
{
    let next = image_constants::gather(known.s, at, words)?;
    if !known.kinds_of(words, kinds) {
        return None;
    }
    image_records::skip_constants(known.s, next, n - words.len())
}

// The next function of an image that was checked, which begins at `at`, after `before` instructions: what is found in it, and where it ends.
fn function(
    known: &Earlier,
    at: usize,
    words: &mut [u64; 256],
    name: u16,
    before: usize,
) -> Option<(Found, usize)>
    requires { (is_right (earlier known.now.s.now known.now.k) (read_function known.now.s.now at) ≡ true) × (before ≤ at) }
    ensures { Stepped name before known.now.s.now known.now.k at result }
{
    let s = known.s;
    let h = image_records::head_of(s, at)?;
    let n = h.constants as usize;
    let first = &mut words[..n.min(256)];
    let mut kinds = [Kind::Missing; 256];
    let runs_at = constants(known, at + Header::BYTES, n, first, &mut kinds)?;
    let mark_at = image_records::skip_runs(s, runs_at, h.runs as usize)?;
    let size = h.code as usize;
    let start = image_records::code_at(s, mark_at, size)?;
    let end = start + size;
    let found = walk(&s[start..end], &kinds, first, name, before);
    Some((found, end))
}

// What is told of a hit at `at` in function `k`, the last of `read` instructions.
fn hit(at: usize, read: usize, k: usize) -> Answer
    requires { at + 2 < 18446744073709551616 }
    ensures { result ≡ record { number = 0; at = at; end = at + 2; name = k; length = read; function = 0; around = 0 } }
{
    let first = at as u64;
    let operand = first + 1;
    Answer {
        number: 0,
        at: first,
        end: operand + 1,
        name: k as u64,
        length: read as u64,
        function: 0,
        around: 0,
    }
}

// All `count` functions of an image that was checked. The refusal never comes: such an image can be read.
fn search(s: &[u8], count: usize, counts: &mut [u16], words: &mut [u64; 256], name: u16) -> Answer
    requires { Sound s.now count }
    ensures { result ≡ Touch.touch s.now name }
{
    let mut at: usize = Header::FIRST;
    let mut read: usize = 0;
    for k in 0..count {
        let known = Earlier { s, k, counts };
        let Some((found, next)) = function(&known, at, words, name, read) else {
            return refused(Refusal::ImageRefused);
        };
        if let Some(place) = found.at {
            return hit(place, found.read, k);
        }
        image_functions::note_count(s, at, k, counts);
        read = found.read;
        at = next;
    }
    accepted(read)
}

// The same with a table for the counts of `N` functions. Few get a small one: it is made of zeros, which takes time.
fn search_by<const N: usize>(s: &[u8], count: usize, name: u16) -> Answer
    requires { Sound s.now count × (N < 4611686018427387904) }
    ensures { result ≡ Touch.touch s.now name }
{
    let mut counts = [0u16; N];
    let mut words = [0u64; 256];
    search(s, count, &mut counts[..], &mut words, name)
}

// The first instruction of an image that names a global: 0 with its offset in `at`, its end in `end`, its function in `name`, and how many
// instructions were read in `length`; where there is none, 0 with the number of all instructions; or 40.
pub fn touch(image: &[u8], name: u16) -> Answer
    ensures { result ≡ Touch.touch image.now name }
{
    let checked = image::check(image);
    if checked.number != 0 {
        return checked;
    }
    let count = fields::u32_at(image, 2) as usize;
    if count <= 2048 {
        return search_by::<2048>(image, count, name);
    }
    search_by::<65536>(image, count, name)
}
