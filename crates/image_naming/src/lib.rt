// How often each function of an image is named by a constant. Counts stop at two, and stand in a table of up to 65,536: more functions are
// taken in blocks of as many.
#![tactic(auto)]

ghost use Rattle.std.specs.Prelude.{◌≡◌, Bool, true, ℕ, ◌+◌, ◌<◌, ◌≤◌, length, get_or, eqb};
ghost use Rattle.rules.specs.Base.{all_below};
ghost use Rattle.rules.specs.Reader.{many};
ghost use Rattle.rules.specs.ImageFile.{read_function};
ghost use Rattle.rules.specs.Checker.{names_in_all, named_once};
ghost use Rattle.image_constants.specs.Words.{constant_of};
ghost use Rattle.image_constants.specs.Earlier.{is_got, earlier};
ghost use Rattle.image_naming.specs.Noted.{Capped, Noted, names_one, ConstantsNoted, FunctionNoted};

use image_records::Header;

// One constant.
fn note(word: u64, base: usize, seen: &mut [u8])
    requires { Capped seen.old }
    ensures { Noted base (names_one (constant_of word)) seen.old seen.new }
{
    if word % 4 != 3 {
        return;
    }
    let number = (word / 4) as usize;
    if number < base {
        return;
    }
    let slot = number - base;
    if slot >= seen.len() {
        return;
    }
    let times = seen[slot];
    if times < 2 {
        seen[slot] = times + 1;
    }
}

// The `n` constants from `begin` on.
fn note_constants(s: &[u8], begin: usize, n: usize, base: usize, seen: &mut [u8]) -> Option<usize>
    requires { Capped seen.old }
    ensures { ConstantsNoted s.now begin n base result seen.old seen.new }
{
    let mut at = begin;
    for _ in 0..n {
        let (word, next) = image_records::constant(s, at)?;
        note(word, base, seen);
        at = next;
    }
    Some(at)
}

// The constants of the function at `at`, and where it ends.
fn note_function(s: &[u8], at: usize, base: usize, seen: &mut [u8]) -> Option<usize>
    requires { Capped seen.old }
    ensures { FunctionNoted s.now at base result seen.old seen.new }
{
    let h = image_records::head_of(s, at)?;
    note_constants(s, at + Header::BYTES, h.constants as usize, base, seen)?;
    image_records::skip_function(s, at)
}

// The constants of all `count` functions, which were read.
fn note_all(s: &[u8], count: usize, base: usize, seen: &mut [u8])
    requires { Capped seen.old × (is_got (many count (read_function s.now) 6) ≡ true) }
    ensures { Noted base (λ (number : ℕ). names_in_all number (earlier s.now count)) seen.old seen.new }
{
    let mut at: usize = Header::FIRST;
    for _ in 0..count {
        let Some(next) = note_function(s, at, base, seen) else {
            return;
        };
        at = next;
    }
}

// Whether all counts are 1.
fn all_one(seen: &[u8]) -> bool
    ensures { result ≡ all_below (length seen.now) (λ (i : ℕ). eqb (get_or seen.now i 0) 1) }
{
    for times in seen {
        if *times != 1 {
            return false;
        }
    }
    true
}

// Whether each of the functions from `base` on, as many as a table has counts, is named by one constant; by the table, which is all 0.
fn once_in(s: &[u8], count: usize, base: usize, seen: &mut [u8]) -> bool
    requires blank { (i : ℕ) → get_or seen.old i 0 ≡ 0 }
    requires s_value { is_got (many count (read_function s.now) 6) ≡ true }
    ensures { result ≡ all_below (length seen.old) (λ (i : ℕ). eqb (names_in_all (base + i) (earlier s.now count)) 1) }
{
    note_all(s, count, base, seen);
    all_one(seen)
}

// Whether each of `most` functions from `base` on is, by a table of `N` counts.
fn once_by<const N: usize>(s: &[u8], count: usize, base: usize, most: usize) -> bool
    requires most_bound { (most ≤ N) × (N < 9223372036854775808) }
    requires s_value { is_got (many count (read_function s.now) 6) ≡ true }
    ensures { result ≡ all_below most (λ (i : ℕ). eqb (names_in_all (base + i) (earlier s.now count)) 1) }
{
    let mut seen = [0u8; N];
    once_in(s, count, base, &mut seen[..most])
}

// The same, by a table that is no larger than it must be: it is made of zeros, which a small image would feel.
fn block_once(s: &[u8], count: usize, base: usize, most: usize) -> bool
    requires { (most ≤ 65536) × (is_got (many count (read_function s.now) 6) ≡ true) }
    ensures { result ≡ all_below most (λ (i : ℕ). eqb (names_in_all (base + i) (earlier s.now count)) 1) }
{
    if most <= 2048 {
        return once_by::<2048>(s, count, base, most);
    }
    once_by::<65536>(s, count, base, most)
}

// Whether each of `count` functions but the last is named by one constant.
pub fn all_named_once(s: &[u8], count: usize) -> bool
    requires { (0 < count) × (is_got (many count (read_function s.now) 6) ≡ true) }
    ensures { result ≡ named_once (earlier s.now count) }
{
    let last = count - 1;
    for base in (0..last).step_by(65536) {
        if !block_once(s, count, base, (last - base).min(65536)) {
            return false;
        }
    }
    true
}
