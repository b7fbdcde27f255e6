// Whether the jumps of a code that divides land on instructions: a ring, filled ahead, holds where they start.
#![tactic(auto)]

ghost use Rattle.std.specs.Prelude.{◌≡◌, true, ◌+◌, ◌<◌, ◌≤◌, length, get_or, drop};
ghost use Rattle.rules.specs.Division as Division;
ghost use Rattle.image_code.specs.Forms as Forms;
ghost use Rattle.image_code.specs.Table.{kinds_in, instruction_at, from, instructions, is_some, Wide};
ghost use Rattle.image_jumps.specs.Ring.{Filled, Near, all_land};

use image_code::{Kind, WINDOW, width_at};
use op::Op;

// How far ahead of a jump the ring is filled: an instruction of three bytes and the largest distance, and one more.
const AHEAD: usize = 65539;

// How far the ring is filled, and how many bytes behind that still belong to the instruction before.
#[derive(Clone, Copy)]
pub struct Lead {
    pub at: usize,
    pub skip: usize,
}

// Marks in the ring, for each byte up to `want`, whether an instruction starts there.
fn fill(code: &[u8], kinds: &[Kind; 256], ring: &mut [bool], begin: Lead, want: usize) -> Lead
    requires filled { Filled (kinds_in kinds.now) code.now ring.old begin.at begin.skip }
    requires at_le_want { (begin.at ≤ want) × (want ≤ length code.now) }
    ensures { (result.at ≡ want) × Filled (kinds_in kinds.now) code.now ring.new want result.skip }
{
    let mut skip = begin.skip;
    for at in begin.at..want {
        let slot = at % WINDOW;
        if skip > 0 {
            ring[slot] = false;
            skip -= 1;
            continue;
        }
        ring[slot] = true;
        skip = width_at(code, at, kinds) - 1;
    }
    Lead { at: want, skip }
}

// Whether the instruction at `at` is no jump, or lands where it may.
fn lands(code: &[u8], at: usize, kinds: &[Kind; 256], ring: &[bool]) -> bool
    requires at_in_bounds { at < length code.now }
    requires code_in_bounds { at + Forms.width (kinds_in kinds.now) (get_or code.now at 0) (drop (at + 1) code.now) ≤ length code.now }
    requires near { Near (kinds_in kinds.now) code.now ring.now at × Wide (length code.now) (length ring.now) }
    ensures { result ≡ Division.lands (instructions (from (kinds_in kinds.now) code.now 0 0)) (length code.now) (instruction_at (kinds_in kinds.now) code.now at) }
{
    let op = code[at];
    if op < Op::JUMP {
        return true;
    }
    if op > Op::LOOP {
        return true;
    }
    let far = code[at + 1] as usize + 256 * (code[at + 2] as usize);
    let next = at + 3;
    if op < Op::LOOP {
        let to = next + far;
        if to == code.len() {
            return true;
        }
        if to > code.len() {
            return false;
        }
        return ring[to % WINDOW];
    }
    if far > next {
        return false;
    }
    let to = next - far;
    if to >= code.len() {
        return false;
    }
    ring[to % WINDOW]
}

// Whether every jump lands where it may, in a code that divides.
pub fn jumps(code: &[u8], kinds: &[Kind; 256], ring: &mut [bool]) -> bool
    requires { (is_some (from (kinds_in kinds.now) code.now 0 0) ≡ true) × Wide (length code.now) (length ring.old) }
    ensures { result ≡ all_land (kinds_in kinds.now) code.now (instructions (from (kinds_in kinds.now) code.now 0 0)) }
{
    let mut skip: usize = 0;
    let mut lead = Lead { at: 0, skip: 0 };
    for at in 0..code.len() {
        if skip > 0 {
            skip -= 1;
            continue;
        }
        let want = code.len().min(at + AHEAD);
        lead = fill(code, kinds, ring, lead, want);
        if !lands(code, at, kinds, ring) {
            return false;
        }
        skip = width_at(code, at, kinds) - 1;
    }
    true
}
