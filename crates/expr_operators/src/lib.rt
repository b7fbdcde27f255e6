// Operators: their opcodes, and the code before and behind the right side of an infix operator.
#![tactic(auto)]

ghost use Rattle.std.specs.Prelude.{ℕ, ◌+◌, ◌≤◌, ◌<◌};
ghost use Rattle.steps.specs.View.{areas, SameAreas, Fit, code_len};
ghost use Rattle.expr_laws.specs.Exprs.{PrefixOp, InfixOp, Begun, Closed};

use op::Op;
use rules::Span;
use step_bytes::emit_op;
use step_jumps::{emit_jump, patch_jump};
use steps::{Step, Work};

// The opcode of a prefix operator's number.
pub fn prefix_op(operator: u8) -> u8
    ensures { PrefixOp operator result }
{
    if operator == 0 {
        return Op::NEGATE;
    }
    Op::NOT
}

// The opcodes of the infix operators, by number, up to those that jump.
const INFIX: [u8; 10] = [
    Op::ADD,
    Op::SUBTRACT,
    Op::MULTIPLY,
    Op::DIVIDE,
    Op::LESS,
    Op::LESS_EQUAL,
    Op::GREATER,
    Op::GREATER_EQUAL,
    Op::EQUAL,
    Op::NOT_EQUAL,
];

fn infix_op(operator: u8) -> u8
    requires { operator < 10 }
    ensures { InfixOp operator result }
{
    INFIX[operator as usize]
}

// An infix operator up to its right side. `and` and `or` leave the operand of a jump open, whose place is the answer's value.
pub fn before_right(
    work: &mut Work<'_>,
    level: usize,
    limit: usize,
    operator: u8,
    span: Span,
) -> Step
    requires { Fit (areas work.old) level limit }
    ensures does { (class : ℕ) → Begun class limit level operator span (areas work.old) (areas work.new) result }
    ensures same { SameAreas work.old work.new }
{
    if operator < 10 {
        return Ok(0);
    }
    let a = emit_jump(work, level, limit, Op::JUMP_IF_FALSE, span);
    let Ok(first) = a else {
        return a;
    };
    if operator == 10 {
        return emit_op(work, level, limit, Op::POP, span, first);
    }
    let b = emit_jump(work, level, limit, Op::JUMP, span);
    let Ok(second) = b else {
        return b;
    };
    let d = patch_jump(work, level, limit, first, span, 0);
    let Ok(_) = d else {
        return d;
    };
    emit_op(work, level, limit, Op::POP, span, second)
}

pub fn after_right(
    work: &mut Work<'_>,
    level: usize,
    limit: usize,
    operator: u8,
    place: usize,
    span: Span,
    next: usize,
) -> Step
    requires { (Fit (areas work.old) level limit) × (10 ≤ operator → place + 2 ≤ code_len (areas work.old) level) }
    ensures does { (class : ℕ) → Closed class limit level operator place next span (areas work.old) (areas work.new) result }
    ensures same { SameAreas work.old work.new }
{
    if operator < 10 {
        return emit_op(work, level, limit, infix_op(operator), span, next);
    }
    patch_jump(work, level, limit, place, span, next)
}
