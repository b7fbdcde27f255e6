// Whether a code divides into instructions whose operands are as they should.
#![tactic(auto)]

ghost use Rattle.std.specs.Prelude.{◌≡◌, ◌+◌, ◌<◌, ◌≤◌, length, get_or, drop};
ghost use Rattle.rules.specs.Division.{pairs_fit, operands_fit};
ghost use Rattle.image_code.specs.Forms as Forms;
ghost use Rattle.image_code.specs.Table.{kinds_in, division, instruction_at, judged};

use image_code::{Form, Kind, form_of, width_at};

// Whether these are pairs, and each opens with 1, or with 0 and then has an index below `upvalues`.
fn pairs(bytes: &[u8], upvalues: usize) -> bool
    ensures { result ≡ pairs_fit upvalues bytes.now }
{
    let mut left = bytes;
    while let [is_local, index, rest @ ..] = left {
        let fits = match *is_local {
            0 => (*index as usize) < upvalues,
            1 => true,
            _ => false,
        };
        if !fits {
            return false;
        }
        left = rest;
    }
    left.is_empty()
}

// Whether the operands of the instruction at `at`, which is within the code, are as they should, jumps aside.
fn fits(code: &[u8], at: usize, kinds: &[Kind; 256], upvalues: usize) -> bool
    requires at_in_bounds { (at < length code.now) × (0 < Forms.width (kinds_in kinds.now) (get_or code.now at 0) (drop (at + 1) code.now)) }
    requires code_in_bounds { at + Forms.width (kinds_in kinds.now) (get_or code.now at 0) (drop (at + 1) code.now) ≤ length code.now }
    ensures { result ≡ operands_fit (kinds_in kinds.now) upvalues (instruction_at (kinds_in kinds.now) code.now at) }
{
    let Some(form) = form_of(code[at]) else {
        return true;
    };
    match form {
        Form::Plain | Form::Byte | Form::Ahead | Form::Back => true,
        Form::Captured => (code[at + 1] as usize) < upvalues,
        Form::Value => matches!(kinds[code[at + 1] as usize], Kind::Number | Kind::Text),
        Form::Text | Form::Invoke => matches!(kinds[code[at + 1] as usize], Kind::Text),
        Form::Closure => {
            let Kind::Function(captured) = kinds[code[at + 1] as usize] else {
                return false;
            };
            let begin = at + 2;
            pairs(&code[begin..begin + 2 * (captured as usize)], upvalues)
        }
    }
}

// How many instructions, where the code divides into such whose operands are as they should.
pub fn walk(code: &[u8], kinds: &[Kind; 256], upvalues: usize) -> Option<usize>
    ensures { result ≡ judged (operands_fit (kinds_in kinds.now) upvalues) 0 (division (kinds_in kinds.now) code.now) }
{
    let mut skip: usize = 0;
    let mut n: usize = 0;
    for at in 0..code.len() {
        if skip > 0 {
            skip -= 1;
            continue;
        }
        let w = width_at(code, at, kinds);
        if w == 0 || code.len() - at < w {
            return None;
        }
        if !fits(code, at, kinds, upvalues) {
            return None;
        }
        skip = w - 1;
        n += 1;
    }
    Some(n)
}
