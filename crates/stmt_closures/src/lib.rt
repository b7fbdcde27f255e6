// The function around makes a closure of a function that was finished.
#![tactic(auto)]

ghost use Rattle.std.specs.Prelude.{ℕ, ◌+◌, ◌<◌};
ghost use Rattle.rules.specs.Compiler.{emit_closure};
ghost use Rattle.state.specs.Layout.{levels, upvalues_of};
ghost use Rattle.steps.specs.View.{areas, SameAreas, Fit, steady, Did};

use op::Op;
use rules::Span;
use step_bytes::{emit_constant, emit_op, function_word};
use step_returns::emit_upvalues;
use steps::{Step, Work};

// The closure of the function that was just finished, which stood at the level above and has this number.
pub fn emit_closure(
    work: &mut Work<'_>,
    level: usize,
    limit: usize,
    number: u32,
    span: Span,
    next: usize,
) -> Step
    requires { (Fit (areas work.old) level limit) × (level + 1 < levels) }
    ensures does { (class : ℕ) → Did class limit level next steady (emit_closure limit number (upvalues_of work.old.table.now (level + 1)) span) (areas work.old) (areas work.new) result }
    ensures same { SameAreas work.old work.new }
{
    let a = emit_op(work, level, limit, Op::CLOSURE, span, next);
    let Ok(_) = a else {
        return a;
    };
    let b = emit_constant(work, level, limit, function_word(number), span, next);
    let Ok(_) = b else {
        return b;
    };
    emit_upvalues(work, level, limit, span, next)
}
