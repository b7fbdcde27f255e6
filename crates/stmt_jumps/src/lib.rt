// The jumps around the parts of an `if`, a `while` and a `for`.
#![tactic(auto)]

ghost use Rattle.std.specs.Prelude.{ℕ, ◌+◌, ◌≤◌, IfSome};
ghost use Rattle.steps.specs.View.{areas, SameAreas, Fit, code_len, steady, Did, Opened};
ghost use Rattle.stmt_jumps.specs.Jumps.{open_jump, turn_jump, close_loop, place_of};

use op::Op;
use rules::Span;
use step_bytes::emit_op;
use step_jumps::{emit_jump, emit_loop, patch_jump};
use steps::{Step, Work};

// A jump past what follows where the value on the stack is false, and that value is dropped. The answer's value is the place of the jump's operand.
pub fn open_jump(work: &mut Work<'_>, level: usize, limit: usize, span: Span) -> Step
    requires { Fit (areas work.old) level limit }
    ensures does { (class : ℕ) → Opened class limit level steady (open_jump limit span) (areas work.old) (areas work.new) result }
    ensures same { SameAreas work.old work.new }
{
    let a = emit_jump(work, level, limit, Op::JUMP_IF_FALSE, span);
    let Ok(place) = a else {
        return a;
    };
    emit_op(work, level, limit, Op::POP, span, place)
}

// The end of an `if`'s first part: a jump past the second, at whose start the jump with its operand at `place` lands.
pub fn turn_jump(work: &mut Work<'_>, level: usize, limit: usize, place: usize, span: Span) -> Step
    requires { (Fit (areas work.old) level limit) × (place + 2 ≤ code_len (areas work.old) level) }
    ensures does { (class : ℕ) → Opened class limit level steady (turn_jump limit place span) (areas work.old) (areas work.new) result }
    ensures same { SameAreas work.old work.new }
{
    let a = emit_jump(work, level, limit, Op::JUMP, span);
    let Ok(second) = a else {
        return a;
    };
    let b = patch_jump(work, level, limit, place, span, 0);
    let Ok(_) = b else {
        return b;
    };
    emit_op(work, level, limit, Op::POP, span, second)
}

// The end of a loop: the jump back to `start`, and where there is a condition the end that its jump lands on, where the value that it tests is dropped. `exit`
// is the place of that jump's operand.
pub fn close_loop(
    work: &mut Work<'_>,
    level: usize,
    limit: usize,
    start: usize,
    exit: Option<usize>,
    span: Span,
    next: usize,
) -> Step
    requires { (Fit (areas work.old) level limit) × (start ≤ code_len (areas work.old) level) × (IfSome exit (λ place. place + 2 ≤ code_len (areas work.old) level)) }
    ensures does { (class : ℕ) → Did class limit level next steady (close_loop limit start (place_of exit) span) (areas work.old) (areas work.new) result }
    ensures same { SameAreas work.old work.new }
{
    let a = emit_loop(work, level, limit, start, span, next);
    let Ok(_) = a else {
        return a;
    };
    let Some(place) = exit else {
        return Ok(next);
    };
    let b = patch_jump(work, level, limit, place, span, next);
    let Ok(_) = b else {
        return b;
    };
    emit_op(work, level, limit, Op::POP, span, next)
}
