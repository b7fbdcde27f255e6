// Calls: the code before and behind the expressions inside. That the bytes are a tree is known: each function says what it does where the rules' reader
// reads something.
#![tactic(auto)]

ghost use Rattle.std.specs.Prelude.{◌+◌, ◌≤◌};
ghost use Rattle.fields.specs.Words.{word16};
ghost use Rattle.steps.specs.View.{areas, SameAreas, Fit};
ghost use Rattle.expr_laws.specs.Exprs.{Somewhere, CallOpened, CallParts, CallClosed};

use fields::{Mark, mark_at, u16_at};
use op::Op;
use rules::{Limit, Name, Span};
use step_bytes::{emit_invoke, emit_op_u8};
use step_names::get_variable;
use step_returns::need_super;
use steps::{Reason, Step, Why, Work};

// A call up to its first part that is compiled; the answer's value is where that part stands.
pub fn call_open(
    tree: &[u8],
    at: usize,
    work: &mut Work<'_>,
    level: usize,
    limit: usize,
    class: u8,
    span: Span,
) -> Step
    requires { (Fit (areas work.old) level limit) × (Somewhere tree.now (at + 12)) }
    ensures does { CallOpened class limit level tree.now at span (areas work.old) (areas work.new) result }
    ensures same { SameAreas work.old work.new }
{
    if Limit::ARGS < u16_at(tree, at + 10) {
        return Err(Why {
            reason: Reason::TooManyArgs,
            span,
            name: 0,
            around: level,
        });
    }
    let mark = mark_at(tree, at + 12);
    if mark == Mark::SUPER {
        let n = need_super(level, class, span, 0);
        let Ok(_) = n else {
            return n;
        };
        return get_variable(work, level, limit, class, Name::THIS, span, at + 24);
    }
    if mark == Mark::GET {
        return Ok(at + 24);
    }
    Ok(at + 12)
}

// How many parts are compiled one after the other: the arguments, and but for a call on `super` the object or the callee before them.
pub fn call_parts(tree: &[u8], at: usize) -> usize
    requires { Somewhere tree.now (at + 12) }
    ensures { CallParts tree.now at result }
{
    let count = u16_at(tree, at + 10) as usize;
    if mark_at(tree, at + 12) == Mark::SUPER {
        return count;
    }
    count + 1
}

pub fn call_close(
    tree: &[u8],
    at: usize,
    work: &mut Work<'_>,
    level: usize,
    limit: usize,
    class: u8,
    span: Span,
    next: usize,
) -> Step
    requires { (Fit (areas work.old) level limit) × (Somewhere tree.now (at + 12)) × (word16 tree.now (at + 10) ≤ 255) }
    ensures does { CallClosed class limit level tree.now at next span (areas work.old) (areas work.new) result }
    ensures same { SameAreas work.old work.new }
{
    let count = (u16_at(tree, at + 10) % 256) as u8;
    let mark = mark_at(tree, at + 12);
    if mark == Mark::SUPER {
        let a = get_variable(work, level, limit, class, Name::SUPER, span, next);
        let Ok(_) = a else {
            return a;
        };
        let name = u16_at(tree, at + 22);
        return emit_invoke(
            work,
            level,
            limit,
            Op::SUPER_INVOKE,
            name,
            count,
            span,
            next,
        );
    }
    if mark == Mark::GET {
        let name = u16_at(tree, at + 22);
        return emit_invoke(work, level, limit, Op::INVOKE, name, count, span, next);
    }
    emit_op_u8(work, level, limit, Op::CALL, count, span, next)
}
