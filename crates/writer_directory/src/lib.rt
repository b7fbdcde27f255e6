// The directory, put behind an image's records: where each of them stands is found by walking them in the output, so that no other memory is used.
// The walk goes by marks and counts alone: crate image_records refuses the bits of numbers that no tree has, and of the output it is not known here
// that it holds none.
#![tactic(auto)]

ghost use Rattle.std.specs.Prelude.{◌≡◌, ◌+◌, ◌*◌, ◌≤◌, length};
ghost use Rattle.writer_directory.specs.Walk.{constant_end, constants_end, record_end, Directed};

use fields::{Mark, has, mark_at, u16_at, u32_at};
use writer_bytes::{set_le, set_mark};

// Where the first record stands, behind the image's mark and count.
const FIRST: usize = 6;

// A function's record up to its constants.
const HEAD_BYTES: usize = 17;

const RUN_BYTES: usize = 11;

// Where the constant at `at` ends, by its mark.
fn constant_end(s: &[u8], at: usize) -> usize
    ensures { result ≡ constant_end s.now at }
{
    if !has(s, at, 2) {
        return at;
    }
    let mark = mark_at(s, at);
    if mark == Mark::NUMBER_CONSTANT {
        return at + 10;
    }
    if mark == Mark::STRING_CONSTANT {
        return at + 4;
    }
    at + 6
}

fn constants_end(s: &[u8], begin: usize, count: usize) -> usize
    ensures { result ≡ constants_end s.now count begin }
{
    let mut at = begin;
    for _ in 0..count {
        at = constant_end(s, at);
    }
    at
}

// Where the function's record at `at` ends: behind its constants and runs, the code's mark and the code.
fn record_end(s: &[u8], at: usize) -> usize
    ensures { result ≡ record_end s.now at }
{
    if !has(s, at, HEAD_BYTES) {
        return at;
    }
    let constants = u16_at(s, at + 7) as usize;
    let runs = u32_at(s, at + 9) as usize;
    let code = u32_at(s, at + 13) as usize;
    let runs_at = constants_end(s, at + HEAD_BYTES, constants);
    runs_at + RUN_BYTES * runs + (2 + code)
}

// Behind the records of so many functions, which end at `n`, where there is room.
pub fn put_directory(out: &mut [u8], n: usize, functions: u64)
    requires { n + 6 + 4 * functions ≤ length out.old }
    ensures { Directed functions n out.old out.new }
{
    let count_at = set_mark(out, n, Mark::DIRECTORY);
    let mut next = set_le(out, count_at, functions, 4);
    let mut at: usize = FIRST;
    for _ in 0..functions {
        next = set_le(out, next, at as u64, 4);
        at = record_end(&out[..], at);
    }
}
