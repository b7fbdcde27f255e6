// Instructions put behind the code, but for jumps: each against the rules' step of its name.
#![tactic(auto)]

ghost use Rattle.std.specs.Prelude.{◌≡◌, ℕ};
ghost use Rattle.rules.specs.Chunk.{CS, CF};
ghost use Rattle.rules.specs.Compiler.{emit_op, emit_op_u8, emit_constant, emit_op_constant, emit_invoke};
ghost use Rattle.state.specs.Layout.{constant_of};
ghost use Rattle.steps.specs.View.{areas, SameAreas, Fit, steady, Did};

use rules::Span;
use steps::{Reason, Step, Why, Work};

// An instruction with no operand, or a byte of one.
pub fn emit_op(
    work: &mut Work<'_>,
    level: usize,
    limit: usize,
    byte: u8,
    span: Span,
    next: usize,
) -> Step
    requires { Fit (areas work.old) level limit }
    ensures does { (class : ℕ) → Did class limit level next steady (emit_op limit byte span) (areas work.old) (areas work.new) result }
    ensures same { SameAreas work.old work.new }
{
    let r = state_code::emit_u8(work.table, work.code, work.spans, level, limit, byte, span);
    let Ok(()) = r else {
        return Err(Why {
            reason: Reason::CodeFull,
            span: Span { start: 0, end: 0 },
            name: 0,
            around: level,
        });
    };
    Ok(next)
}

pub fn emit_op_u8(
    work: &mut Work<'_>,
    level: usize,
    limit: usize,
    op: u8,
    operand: u8,
    span: Span,
    next: usize,
) -> Step
    requires { Fit (areas work.old) level limit }
    ensures does { (class : ℕ) → Did class limit level next steady (emit_op_u8 limit op operand span) (areas work.old) (areas work.new) result }
    ensures same { SameAreas work.old work.new }
{
    let a = emit_op(work, level, limit, op, span, next);
    let Ok(_) = a else {
        return a;
    };
    emit_op(work, level, limit, operand, span, next)
}

// The place of a constant, whose word is w.
pub fn emit_constant(
    work: &mut Work<'_>,
    level: usize,
    limit: usize,
    w: u64,
    span: Span,
    next: usize,
) -> Step
    requires { Fit (areas work.old) level limit }
    ensures does { (class : ℕ) → Did class limit level next steady (emit_constant limit (constant_of w) span) (areas work.old) (areas work.new) result }
    ensures same { SameAreas work.old work.new }
{
    let r = state_code::write_constant(work.table, level, w);
    let Ok(place) = r else {
        return Err(Why {
            reason: Reason::TooManyConstants,
            span,
            name: 0,
            around: level,
        });
    };
    emit_op(work, level, limit, place, span, next)
}

pub fn emit_op_constant(
    work: &mut Work<'_>,
    level: usize,
    limit: usize,
    op: u8,
    w: u64,
    span: Span,
    next: usize,
) -> Step
    requires { Fit (areas work.old) level limit }
    ensures does { (class : ℕ) → Did class limit level next steady (emit_op_constant limit op (constant_of w) span) (areas work.old) (areas work.new) result }
    ensures same { SameAreas work.old work.new }
{
    let a = emit_op(work, level, limit, op, span, next);
    let Ok(_) = a else {
        return a;
    };
    let b = emit_constant(work, level, limit, w, span, next);
    let Ok(_) = b else {
        return b;
    };
    Ok(next)
}

// A name's word as a constant, and a function's.
pub fn name_word(name: u16) -> u64
    ensures { constant_of result ≡ CS name }
{
    9223372036854775808 + (name as u64)
}

pub fn function_word(number: u32) -> u64
    ensures { constant_of result ≡ CF number }
{
    9223372041149743104 + (number as u64)
}

// An opcode and the place of a name.
pub fn emit_op_name(
    work: &mut Work<'_>,
    level: usize,
    limit: usize,
    op: u8,
    name: u16,
    span: Span,
    next: usize,
) -> Step
    requires { Fit (areas work.old) level limit }
    ensures does { (class : ℕ) → Did class limit level next steady (emit_op_constant limit op (CS name) span) (areas work.old) (areas work.new) result }
    ensures same { SameAreas work.old work.new }
{
    emit_op_constant(work, level, limit, op, name_word(name), span, next)
}

pub fn emit_invoke(
    work: &mut Work<'_>,
    level: usize,
    limit: usize,
    op: u8,
    name: u16,
    count: u8,
    span: Span,
    next: usize,
) -> Step
    requires { Fit (areas work.old) level limit }
    ensures does { (class : ℕ) → Did class limit level next steady (emit_invoke limit op (CS name) count span) (areas work.old) (areas work.new) result }
    ensures same { SameAreas work.old work.new }
{
    let a = emit_op(work, level, limit, op, span, next);
    let Ok(_) = a else {
        return a;
    };
    let b = emit_constant(work, level, limit, name_word(name), span, next);
    let Ok(_) = b else {
        return b;
    };
    emit_op(work, level, limit, count, span, next)
}
