// Constants put into the output: room for a constant is tested once.
#![tactic(auto)]

ghost use Rattle.std.specs.Prelude.{◌∷◌, ◌+◌, ◌*◌, ◌/◌, ◌%◌, ◌≤◌, length, map};
ghost use Rattle.rules.specs.Base.{le};
ghost use Rattle.rules.specs.Image.{join, constant_bytes};
ghost use Rattle.state.specs.Layout.{constant_of};
ghost use Rattle.writer_bytes.specs.Put.{Put};

use fields::{Mark, has};
use writer_bytes::{put_le, put_mark, set_le, set_mark};

// A constant's mark and its content, `size` bytes of it.
pub fn put_marked(out: &mut [u8], at: usize, mark: u16, content: u64, size: usize) -> usize
    requires { at + 2 + size ≤ 1152921504606846976 }
    ensures { Put out.old out.new at (mark / 256 ∷ mark % 256 ∷ le size content) result }
{
    if has(&out[..], at, 2 + size) {
        let next = set_mark(out, at, mark);
        return set_le(out, next, content, size);
    }
    let next = put_mark(out, at, mark);
    put_le(out, next, content, size)
}

// A constant, by its word.
pub fn put_constant(out: &mut [u8], at: usize, w: u64) -> usize
    requires { at + 10 ≤ 1152921504606846976 }
    ensures { Put out.old out.new at (constant_bytes (constant_of w)) result }
{
    if w < 9223372036854775808 {
        return put_marked(out, at, Mark::NUMBER_CONSTANT, w, 8);
    }
    if w < 9223372041149743104 {
        return put_marked(out, at, Mark::STRING_CONSTANT, w - 9223372036854775808, 2);
    }
    put_marked(out, at, Mark::FUNCTION_CONSTANT, w - 9223372041149743104, 4)
}

// The constants, by their words.
pub fn put_constants(out: &mut [u8], at: usize, words: &[u64]) -> usize
    requires { at + length words.now * 10 ≤ 1152921504606846976 }
    ensures { Put out.old out.new at (join constant_bytes (map constant_of words.now)) result }
{
    let mut next = at;
    for w in words {
        next = put_constant(out, next, *w);
    }
    next
}
