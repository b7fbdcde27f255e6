// Whether each function of the constants is named by one CLOSURE, in a code that divides.
#![tactic(auto)]

ghost use Rattle.std.specs.Prelude.{◌≡◌, true, eqb, ℕ, get_or, if◌then◌else◌};
ghost use Rattle.rules.specs.Base.{all_below};
ghost use Rattle.rules.specs.Division.{is_function};
ghost use Rattle.image_code.specs.Table.{kinds_in};
ghost use Rattle.image_closures.specs.Counts.{Closing, Counted};

use image_code::{Kind, width_at};
use op::Op;

// How often each place is named by a CLOSURE, in a code that divides.
pub fn closures(code: &[u8], kinds: &[Kind; 256], named: &mut [u64; 256])
    requires { Closing (kinds_in kinds.now) code.now named.old 0 0 }
    ensures { Counted (kinds_in kinds.now) code.now named.new }
{
    let mut skip: usize = 0;
    for at in 0..code.len() {
        if skip > 0 {
            skip -= 1;
            continue;
        }
        skip = width_at(code, at, kinds) - 1;
        if code[at] == Op::CLOSURE {
            named[code[at + 1] as usize] += 1;
        }
    }
}

// Whether each function of the table is named once.
pub fn all_once(kinds: &[Kind; 256], named: &[u64; 256]) -> bool
    ensures { result ≡ all_below 256 (λ (i : ℕ). if is_function (kinds_in kinds.now i) then eqb (get_or named.now i 0) 1 else true) }
{
    for (i, kind) in kinds.iter().enumerate() {
        let Kind::Function(_) = kind else {
            continue;
        };
        if named[i] != 1 {
            return false;
        }
    }
    true
}
