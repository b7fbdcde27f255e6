// The functions of an image, one after the other: the constants, runs and code of each are judged by the functions before it.
#![tactic(auto)]

ghost use Rattle.std.specs.Prelude.{◌≡◌, [], ℕ, Some, ◌+◌, ◌<◌, ◌≤◌, length, get_or};
ghost use Rattle.rules.specs.Reader.{many};
ghost use Rattle.rules.specs.ImageFile.{read_function};
ghost use Rattle.image_code.specs.declared.Kind.TheVariants.{Missing};
ghost use Rattle.image_code.specs.Table.{kinds_in, Wide};
ghost use Rattle.image_records.specs.Told.{code_told};
ghost use Rattle.image_constants.specs.Words.{stamps_least};
ghost use Rattle.image_constants.specs.Earlier.{Counts};
ghost use Rattle.image_functions.specs.Judged.{ConstantsRight, code_done, Judged, NextIs, functions_done};

use image_code::{Kind, WINDOW};
use image_constants::Earlier;
use image_records::Header;

// An image of at most this many bytes is small: it pays for small tables only.
const SMALL: usize = 4096;

// The constants of the next function, as many as there are words for: that they are right, where they end, and their kinds. Inlined into the
// places that know the table which the words are a part of: the search for an equal word then takes two words a step.
#[inline(always)]
fn constants_in(
    known: &Earlier,
    at: usize,
    words: &mut [u64],
    stamps: &mut [u32],
    kinds: &mut [Kind; 256],
) -> Option<usize>
    requires k_bound { known.now.k < 4294967295 }
    requires stamps_len { stamps_least ≤ length stamps.old }
    requires kinds_len { (p : ℕ) → get_or kinds.old p Missing ≡ Missing }
    ensures { ConstantsRight known.now.s.now known.now.k at (length words.old) result kinds.new }
{
    let next = image_constants::gather(known.s, at, words)?;
    let mark = (known.k + 1) as u32;
    if !image_constants::all_new(words, mark, stamps) {
        return None;
    }
    if !known.kinds_of(words, kinds) {
        return None;
    }
    Some(next)
}

// More than 256 constants, which no compiler makes: tables of their own, so that the others pay for none.
fn constants_many(known: &Earlier, at: usize, n: usize, kinds: &mut [Kind; 256]) -> Option<usize>
    requires n_bound { (n < 65536) × (known.now.k < 4294967295) }
    requires kinds_len { (p : ℕ) → get_or kinds.old p Missing ≡ Missing }
    ensures { ConstantsRight known.now.s.now known.now.k at n result kinds.new }
{
    let mut words = [0; 65536];
    let mut stamps = [0; 65536];
    constants_in(known, at, &mut words[..n], &mut stamps, kinds)
}

// Any number of constants.
fn constants_right(
    known: &Earlier,
    at: usize,
    n: usize,
    words: &mut [u64; 256],
    stamps: &mut [u32],
    kinds: &mut [Kind; 256],
) -> Option<usize>
    requires n_bound { (n < 65536) × (known.now.k < 4294967295) }
    requires stamps_len { stamps_least ≤ length stamps.old }
    requires kinds_len { (p : ℕ) → get_or kinds.old p Missing ≡ Missing }
    ensures { ConstantsRight known.now.s.now known.now.k at n result kinds.new }
{
    if n <= 256 {
        return constants_in(known, at, &mut words[..n], stamps, kinds);
    }
    constants_many(known, at, n, kinds)
}

// The code of `size` bytes whose mark is at `at`, beside runs that stand for `sum` bytes: how many instructions it has, and where it ends.
fn code_right(
    s: &[u8],
    at: usize,
    size: usize,
    sum: u64,
    upvalues: usize,
    kinds: &[Kind; 256],
    ring: &mut [bool],
) -> Option<(usize, usize)>
    requires { Wide (length s.now) (length ring.old) }
    ensures value { result ≡ code_done (kinds_in kinds.now) upvalues sum size s.now (code_told s.now size at) }
    ensures by_index { (n next : ℕ) → result ≡ Some (n, next) → (at + n ≤ next) × (next ≤ length s.now) }
{
    let first = image_records::code_at(s, at, size)?;
    if sum != size as u64 {
        return None;
    }
    let end = first + size;
    let n = image_judge::code_fits(&s[first..end], kinds, upvalues, ring)?;
    Some((n, end))
}

// The next function, which begins at `at`: how many instructions it has, and where it ends.
fn function(
    known: &Earlier,
    at: usize,
    words: &mut [u64; 256],
    stamps: &mut [u32],
    ring: &mut [bool],
) -> Option<(usize, usize)>
    requires k_bound { known.now.k < 4294967295 }
    requires stamps_len { (stamps_least ≤ length stamps.old) × Wide (length known.now.s.now) (length ring.old) }
    ensures { Judged known.now.s.now known.now.k at result }
{
    let s = known.s;
    let h = image_records::head_of(s, at)?;
    let mut kinds = [Kind::Missing; 256];
    let runs_at = constants_right(
        known,
        at + Header::BYTES,
        h.constants as usize,
        words,
        stamps,
        &mut kinds,
    )?;
    let (sum, code_at) = image_records::runs(s, runs_at, h.runs as usize)?;
    code_right(
        s,
        code_at,
        h.code as usize,
        sum,
        h.upvalues as usize,
        &kinds,
        ring,
    )
}

// Function `k`, which begins at `at`, joins the table of captured variables.
pub fn note_count(s: &[u8], at: usize, k: usize, counts: &mut [u16])
    requires counts { Counts s.now k counts.old }
    requires next_is { NextIs s.now k at }
    ensures { Counts s.now (k + 1) counts.new }
{
    let Some(h) = image_records::head_of(s, at) else {
        return;
    };
    if k < counts.len() {
        counts[k] = h.upvalues;
    }
}

// All `count` functions: how many instructions they have, and where they end. All tables are lent to each function, and none is cleared between
// two. The words for up to 256 constants are made here, where the search for an equal word is inlined.
fn judge_all(
    s: &[u8],
    count: usize,
    counts: &mut [u16],
    stamps: &mut [u32],
    ring: &mut [bool],
) -> Option<(usize, usize)>
    requires count_bound { (count < 4294967296) × (6 ≤ length s.now) }
    requires stamps_len { (stamps_least ≤ length stamps.old) × Wide (length s.now) (length ring.old) }
    ensures { result ≡ functions_done 0 [] (many count (read_function s.now) 6) }
{
    let mut words = [0; 256];
    let mut at = Header::FIRST;
    let mut total: usize = 0;
    for k in 0..count {
        let (n, next) = function(&Earlier { s, k, counts }, at, &mut words, stamps, ring)?;
        note_count(s, at, k, counts);
        total += n;
        at = next;
    }
    Some((total, at))
}

// The same with tables of these sizes.
fn judge_in<const COUNTS: usize, const STAMPS: usize, const RING: usize>(
    s: &[u8],
    count: usize,
) -> Option<(usize, usize)>
    requires count_bound { (count < 4294967296) × (6 ≤ length s.now) }
    requires stamps_len { (stamps_least ≤ STAMPS) × Wide (length s.now) RING }
    requires sizes { (COUNTS ≤ 65536) × ((STAMPS ≤ 65536) × (RING ≤ 131072)) }
    ensures { result ≡ functions_done 0 [] (many count (read_function s.now) 6) }
{
    let mut counts = [0; COUNTS];
    let mut stamps = [0; STAMPS];
    let mut ring = [false; RING];
    judge_all(s, count, &mut counts, &mut stamps, &mut ring)
}

// All `count` functions of an image. Tables are made of zeros, which takes a small image longer than its reading: so it gets small ones. No code
// of it is longer than its ring, and with 19 bytes and more to each it has less than 256 functions. Few functions get a small table of counts.
pub fn judge(s: &[u8], count: usize) -> Option<(usize, usize)>
    requires { (count < 4294967296) × (6 ≤ length s.now) }
    ensures { result ≡ functions_done 0 [] (many count (read_function s.now) 6) }
{
    if s.len() <= SMALL {
        return judge_in::<256, 512, SMALL>(s, count);
    }
    if count <= 2048 {
        return judge_in::<2048, 4096, WINDOW>(s, count);
    }
    judge_in::<65536, 4096, WINDOW>(s, count)
}
