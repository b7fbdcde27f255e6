// The compiler's walk over the expressions of a tree file: one function, which calls itself while the bytes that are left fall. That the bytes are a tree is
// known: it says what it does where the rules' reader reads something.
#![tactic(auto)]

ghost use Rattle.std.specs.Prelude.{◌≡◌, ℕ, ◌+◌};
ghost use Rattle.fields.specs.Words.{letters, span_of};
ghost use Rattle.steps.specs.View.{areas, SameAreas, Fit};
ghost use Rattle.expr_laws.specs.Exprs.{Somewhere, expr_at, Ran};
ghost use Rattle.fields.specs.Marks as marks;

use expr_calls::{call_close, call_open, call_parts};
use expr_operators::{after_right, before_right, prefix_op};
use expr_super::compile_super;
use fields::{Mark, mark_at, span_at, u8_at, u16_at, u64_at};
use op::Op;
use rules::Span;
use step_bytes::{emit_op, emit_op_constant, emit_op_name};
use step_names::{get_variable, set_variable};
use steps::{Step, Work};

fn literal(
    tree: &[u8],
    at: usize,
    work: &mut Work<'_>,
    level: usize,
    limit: usize,
    span: Span,
) -> Step
    requires { (Fit (areas work.old) level limit) × (Somewhere tree.now at) × (letters tree.now at ≡ marks.EL) × (span ≡ span_of tree.now (at + 2)) }
    ensures does { (class d : ℕ) → Ran class limit level (expr_at tree.now d at) (areas work.old) (areas work.new) result }
    ensures same { SameAreas work.old work.new }
{
    let kind = u8_at(tree, at + 10);
    if kind == 0 {
        return emit_op(work, level, limit, Op::FALSE, span, at + 11);
    }
    if kind == 1 {
        return emit_op(work, level, limit, Op::TRUE, span, at + 11);
    }
    if kind == 2 {
        return emit_op(work, level, limit, Op::NIL, span, at + 11);
    }
    if kind == 3 {
        let bits = u64_at(tree, at + 11);
        return emit_op_constant(work, level, limit, Op::CONSTANT, bits, span, at + 19);
    }
    let name = u16_at(tree, at + 11);
    emit_op_name(work, level, limit, Op::CONSTANT, name, span, at + 13)
}

// The expression whose record starts at `at`. The answer's value is where the record ends. It calls itself further on in the tree, so fewer bytes are left
// each time. An answer is taken apart and made again: one that is only handed on is copied through memory, and the copy waits for the stores before it.
pub fn compile_expr(
    tree: &[u8],
    at: usize,
    work: &mut Work<'_>,
    level: usize,
    limit: usize,
    class: u8,
) -> Step
    requires { (Somewhere tree.now at) × (Fit (areas work.old) level limit) }
    ensures does { (d : ℕ) → Ran class limit level (expr_at tree.now d at) (areas work.old) (areas work.new) result }
    ensures same { SameAreas work.old work.new }
{
    let mark = mark_at(tree, at);
    let span = span_at(tree, at + 2);
    if mark == Mark::LITERAL {
        let plain = literal(tree, at, work, level, limit, span);
        let Ok(end) = plain else {
            return plain;
        };
        return Ok(end);
    }
    if mark == Mark::VARIABLE {
        let variable = u16_at(tree, at + 10);
        let fetched = get_variable(work, level, limit, class, variable, span, at + 12);
        let Ok(end) = fetched else {
            return fetched;
        };
        return Ok(end);
    }
    if mark == Mark::INFIX {
        let operator = u8_at(tree, at + 10);
        let lhs = compile_expr(&tree[..], at + 11, work, level, limit, class);
        let Ok(right) = lhs else {
            return lhs;
        };
        let begun = before_right(work, level, limit, operator, span);
        let Ok(place) = begun else {
            return begun;
        };
        let rhs = compile_expr(&tree[..], right, work, level, limit, class);
        let Ok(next) = rhs else {
            return rhs;
        };
        let joined = after_right(work, level, limit, operator, place, span, next);
        let Ok(end) = joined else {
            return joined;
        };
        return Ok(end);
    }
    if mark == Mark::PREFIX {
        let sign = u8_at(tree, at + 10);
        let operand = compile_expr(&tree[..], at + 11, work, level, limit, class);
        let Ok(next) = operand else {
            return operand;
        };
        let signed = emit_op(work, level, limit, prefix_op(sign), span, next);
        let Ok(end) = signed else {
            return signed;
        };
        return Ok(end);
    }
    if mark == Mark::CALL {
        let opened = call_open(tree, at, work, level, limit, class, span);
        let Ok(first) = opened else {
            return opened;
        };
        let mut next = first;
        let parts = call_parts(tree, at);
        for _ in 0..parts {
            let part = compile_expr(&tree[..], next, work, level, limit, class);
            let Ok(n) = part else {
                return part;
            };
            next = n;
        }
        let called = call_close(tree, at, work, level, limit, class, span, next);
        let Ok(end) = called else {
            return called;
        };
        return Ok(end);
    }
    if mark == Mark::SUPER {
        let method = u16_at(tree, at + 10);
        let bound = compile_super(work, level, limit, class, method, span, at + 12);
        let Ok(end) = bound else {
            return bound;
        };
        return Ok(end);
    }
    if mark == Mark::ASSIGN {
        let assigned = u16_at(tree, at + 10);
        let given = compile_expr(&tree[..], at + 12, work, level, limit, class);
        let Ok(next) = given else {
            return given;
        };
        let stored = set_variable(work, level, limit, assigned, span, next);
        let Ok(end) = stored else {
            return stored;
        };
        return Ok(end);
    }
    if mark == Mark::GET {
        let property = u16_at(tree, at + 10);
        let object = compile_expr(&tree[..], at + 12, work, level, limit, class);
        let Ok(next) = object else {
            return object;
        };
        let read = emit_op_name(work, level, limit, Op::GET_PROPERTY, property, span, next);
        let Ok(end) = read else {
            return read;
        };
        return Ok(end);
    }
    // A set: the value stands before the object, whose place is known once the value is compiled.
    let field = u16_at(tree, at + 10);
    let from = at + 12;
    let value = compile_expr(&tree[..], from, work, level, limit, class);
    let Ok(after) = value else {
        return value;
    };
    let holder = compile_expr(&tree[..], after, work, level, limit, class);
    let Ok(next) = holder else {
        return holder;
    };
    let put = emit_op_name(work, level, limit, Op::SET_PROPERTY, field, span, next);
    let Ok(end) = put else {
        return put;
    };
    Ok(end)
}
