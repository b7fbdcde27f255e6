// The code of one function of an image: whether it divides into instructions whose operands are as they should, whose jumps land on
// instructions, and among which each function of the constants is named by one CLOSURE.
#![tactic(auto)]

ghost use Rattle.std.specs.Prelude.{◌≡◌, length};
ghost use Rattle.image_code.specs.Table.{kinds_in, division, Wide, judged_code};

use image_closures::{all_once, closures};
use image_code::Kind;
use image_fit::walk;
use image_jumps::jumps;

// The code of a function whose constants are in the table: how many instructions it has.
pub fn code_fits(
    code: &[u8],
    kinds: &[Kind; 256],
    upvalues: usize,
    ring: &mut [bool],
) -> Option<usize>
    requires { Wide (length code.now) (length ring.old) }
    ensures { result ≡ judged_code (kinds_in kinds.now) upvalues (length code.now) (division (kinds_in kinds.now) code.now) }
{
    let n = walk(code, kinds, upvalues)?;
    if !jumps(code, kinds, ring) {
        return None;
    }
    let mut named = [0; 256];
    closures(code, kinds, &mut named);
    if !all_once(kinds, &named) {
        return None;
    }
    Some(n)
}
