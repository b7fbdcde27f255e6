// Bytes put behind what the output holds so far. Where the output has no room the length is counted on, so that the length needed is known in
// the end. Where room was tested once, for a record or a stretch of code, `set_*` set its bytes with no test more; `put_*` test at each byte, for
// what a function or an image has once, and for the record that does not fit and those behind it. The two differ in what they ask and in that test,
// not in a constant: one function with a flag would have to ask either by the flag, and be no plainer.
#![tactic(auto)]

ghost use Rattle.std.specs.Prelude.{[], ◌∷◌, ◌+◌, ◌/◌, ◌%◌, ◌≤◌, length};
ghost use Rattle.rules.specs.Base.{le};
ghost use Rattle.writer_bytes.specs.Put.{Put};

use fields::has;

// One byte, where there is room.
fn set_u8(out: &mut [u8], at: usize, b: u8) -> usize
    requires { at + 1 ≤ length out.old }
    ensures { Put out.old out.new at (b ∷ []) result }
{
    out[at] = b;
    at + 1
}

// The bytes of a number, the lowest first, where there is room.
pub fn set_le(out: &mut [u8], at: usize, n: u64, count: usize) -> usize
    requires { at + count ≤ length out.old }
    ensures { Put out.old out.new at (le count n) result }
{
    let mut next = at;
    let mut m = n;
    for _ in 0..count {
        next = set_u8(out, next, (m % 256) as u8);
        m = m / 256;
    }
    next
}

// The two letters of a mark, where there is room.
pub fn set_mark(out: &mut [u8], at: usize, mark: u16) -> usize
    requires { at + 2 ≤ length out.old }
    ensures { Put out.old out.new at (mark / 256 ∷ mark % 256 ∷ []) result }
{
    let next = set_u8(out, at, (mark / 256) as u8);
    set_u8(out, next, (mark % 256) as u8)
}

// The bytes of a stretch of code, where there is room. One by one: the library's copy is a call of C's memmove, and a program that links the archive
// need not have one.
fn set_code(out: &mut [u8], at: usize, code: &[u8]) -> usize
    requires { at + length code.now ≤ length out.old }
    ensures { Put out.old out.new at code.now result }
{
    let mut next = at;
    for b in code {
        next = set_u8(out, next, *b);
    }
    next
}

// One byte.
pub fn put_u8(out: &mut [u8], at: usize, b: u8) -> usize
    requires { at + 1 ≤ 1152921504606846976 }
    ensures { Put out.old out.new at (b ∷ []) result }
{
    if at < out.len() {
        out[at] = b;
        return at + 1;
    }
    at + 1
}

// The bytes of a number, the lowest first.
pub fn put_le(out: &mut [u8], at: usize, n: u64, count: usize) -> usize
    requires { at + count ≤ 1152921504606846976 }
    ensures { Put out.old out.new at (le count n) result }
{
    let mut next = at;
    let mut m = n;
    for _ in 0..count {
        next = put_u8(out, next, (m % 256) as u8);
        m = m / 256;
    }
    next
}

// The two letters of a mark.
pub fn put_mark(out: &mut [u8], at: usize, mark: u16) -> usize
    requires { at + 2 ≤ 1152921504606846976 }
    ensures { Put out.old out.new at (mark / 256 ∷ mark % 256 ∷ []) result }
{
    let next = put_u8(out, at, (mark / 256) as u8);
    put_u8(out, next, (mark % 256) as u8)
}

// The bytes of a stretch of code.
pub fn put_code(out: &mut [u8], at: usize, code: &[u8]) -> usize
    requires { at + length code.now ≤ 1152921504606846976 }
    ensures { Put out.old out.new at code.now result }
{
    if has(&out[..], at, code.len()) {
        return set_code(out, at, code);
    }
    let mut next = at;
    for b in code {
        next = put_u8(out, next, *b);
    }
    next
}
