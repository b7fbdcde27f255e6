// Jumps ahead, whose operand is put in later, and loops: each against the rules' step of its name.
#![tactic(auto)]

ghost use Rattle.std.specs.Prelude.{◌≡◌, ℕ, ◌+◌, ◌≤◌, ◌<◌, length};
ghost use Rattle.rules.specs.Compiler.{emit_jump, patch_jump, emit_loop};
ghost use Rattle.state.specs.Layout.{levels, table_words, start_of_code, end_of_code};
ghost use Rattle.steps.specs.View.{areas, SameAreas, Fit, code_len, steady, Did, Opened, Measured};

use op::Op;
use rules::{Limit, Span};
use state::Table;
use step_bytes::emit_op;
use steps::{Reason, Step, Why, Work};

// Where the innermost function's next byte goes: also where a loop starts.
pub fn code_length(t: &[u64], level: usize) -> usize
    requires { (level < levels) × (length t.now ≡ table_words) × (start_of_code t.now level ≤ end_of_code t.now) }
    ensures { Measured t.now level result }
{
    let from = t[level * Table::LEVEL_WORDS + Table::CODE_FROM] as usize;
    let end = t[Table::CODE_END] as usize;
    end - from
}

// The same of the areas.
pub fn code_length_in(work: &Work<'_>, level: usize) -> usize
    requires { (level < levels) × (length work.now.table.now ≡ table_words) × (start_of_code work.now.table.now level ≤ end_of_code work.now.table.now) }
    ensures { Measured work.now.table.now level result }
{
    code_length(work.table, level)
}

// A jump with its operand open. The answer's value is the operand's place.
pub fn emit_jump(work: &mut Work<'_>, level: usize, limit: usize, op: u8, span: Span) -> Step
    requires { Fit (areas work.old) level limit }
    ensures does { (class : ℕ) → Opened class limit level steady (emit_jump limit op span) (areas work.old) (areas work.new) result }
    ensures same { SameAreas work.old work.new }
{
    let a = emit_op(work, level, limit, op, span, 0);
    let Ok(_) = a else {
        return a;
    };
    let b = emit_op(work, level, limit, 255, span, 0);
    let Ok(_) = b else {
        return b;
    };
    let d = emit_op(work, level, limit, 255, span, 0);
    let Ok(_) = d else {
        return d;
    };
    let n = code_length_in(&*work, level);
    Ok(n - 2)
}

// The operand at `place` set so that the jump lands on the end of the code.
pub fn patch_jump(
    work: &mut Work<'_>,
    level: usize,
    limit: usize,
    place: usize,
    span: Span,
    next: usize,
) -> Step
    requires { (Fit (areas work.old) level limit) × (place + 2 ≤ code_len (areas work.old) level) }
    ensures does { (class : ℕ) → Did class limit level next steady (patch_jump place span) (areas work.old) (areas work.new) result }
    ensures same { SameAreas work.old work.new }
{
    let from = work.table[level * Table::LEVEL_WORDS + Table::CODE_FROM] as usize;
    let end = work.table[Table::CODE_END] as usize;
    let distance = end - from - 2 - place;
    if Limit::JUMP < distance {
        return Err(Why {
            reason: Reason::JumpTooLarge,
            span,
            name: 0,
            around: level,
        });
    }
    let at = from + place;
    work.code[at] = (distance % 256) as u8;
    work.code[at + 1] = (distance / 256) as u8;
    Ok(next)
}

// A jump back to `start`.
pub fn emit_loop(
    work: &mut Work<'_>,
    level: usize,
    limit: usize,
    start: usize,
    span: Span,
    next: usize,
) -> Step
    requires { (Fit (areas work.old) level limit) × (start ≤ code_len (areas work.old) level) }
    ensures does { (class : ℕ) → Did class limit level next steady (emit_loop limit start span) (areas work.old) (areas work.new) result }
    ensures same { SameAreas work.old work.new }
{
    let back = code_length_in(&*work, level) + 3 - start;
    if Limit::JUMP < back {
        return Err(Why {
            reason: Reason::JumpTooLarge,
            span,
            name: 0,
            around: level,
        });
    }
    let a = emit_op(work, level, limit, Op::LOOP, span, next);
    let Ok(_) = a else {
        return a;
    };
    let b = emit_op(work, level, limit, (back % 256) as u8, span, next);
    let Ok(_) = b else {
        return b;
    };
    emit_op(work, level, limit, (back / 256) as u8, span, next)
}
