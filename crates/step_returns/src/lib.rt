// How a function ends, the pairs of its closure, and how the script starts: each against the rules' step of its name.
#![tactic(auto)]

ghost use Rattle.std.specs.Prelude.{◌≡◌, ℕ, ◌+◌, ◌≤◌, ◌<◌, length};
ghost use Rattle.std.proofs.Math.Option.{none};
ghost use Rattle.rules.specs.Compiler.{need_super, return_value, compile_return, implicit_return, emit_upvalues};
ghost use Rattle.state.specs.Layout.{levels, table_words, type_of, end_of_code, upvalues_of};
ghost use Rattle.steps.specs.View.{areas, SameAreas, Fit, steady, Did, Judged, Ending, Started, PairedAt};

use op::Op;
use rules::{Name, Span};
use state::{Kind, Table};
use step_bytes::{emit_op, emit_op_u8};
use steps::{Class, Reason, Step, Why, Work};

// `super`, which a class with a superclass must be around.
pub fn need_super(level: usize, class: u8, span: Span, next: usize) -> Step
    ensures { Judged class level next (need_super span) result }
{
    if class == Class::NONE {
        return Err(Why {
            reason: Reason::SuperOutsideClass,
            span,
            name: 0,
            around: level,
        });
    }
    if class == Class::ALONE {
        return Err(Why {
            reason: Reason::SuperWithoutSuperclass,
            span,
            name: 0,
            around: level,
        });
    }
    Ok(next)
}

// The code's last byte is RETURN's, an operand or not.
pub fn ends_in_return(t: &[u64], code: &[u8], level: usize) -> bool
    requires { (level < levels) × (length t.now ≡ table_words) × (end_of_code t.now ≤ length code.now) }
    ensures { Ending t.now code.now level result }
{
    let from = t[level * Table::LEVEL_WORDS + Table::CODE_FROM] as usize;
    let end = t[Table::CODE_END] as usize;
    if end <= from {
        return false;
    }
    code[end - 1] == Op::RETURN
}

// The same of the areas.
fn ends_in(work: &Work<'_>, level: usize) -> bool
    requires { (level < levels) × (length work.now.table.now ≡ table_words) × (end_of_code work.now.table.now ≤ length work.now.code.now) }
    ensures { Ending work.now.table.now work.now.code.now level result }
{
    ends_in_return(work.table, work.code, level)
}

// What a function of this kind returns with no value: an initializer its own object, any other NIL.
pub fn emit_nothing(
    work: &mut Work<'_>,
    level: usize,
    limit: usize,
    kind: u64,
    span: Span,
    next: usize,
) -> Step
    requires { (Fit (areas work.old) level limit) × (0 < kind) }
    ensures does { (class : ℕ) → Did class limit level next steady (return_value limit (type_of kind) none span) (areas work.old) (areas work.new) result }
    ensures same { SameAreas work.old work.new }
{
    if Kind::Initializer as u64 <= kind {
        return emit_op_u8(work, level, limit, Op::GET_LOCAL, 0, span, next);
    }
    emit_op(work, level, limit, Op::NIL, span, next)
}

// A return with no value.
pub fn return_nothing(
    work: &mut Work<'_>,
    level: usize,
    limit: usize,
    span: Span,
    next: usize,
) -> Step
    requires { Fit (areas work.old) level limit }
    ensures does { (class : ℕ) → Did class limit level next steady (compile_return limit none span) (areas work.old) (areas work.new) result }
    ensures same { SameAreas work.old work.new }
{
    let kind = work.table[level * Table::LEVEL_WORDS + Table::TYPE];
    if kind == Kind::Script as u64 {
        return Err(Why {
            reason: Reason::ReturnOutsideFunction,
            span,
            name: 0,
            around: level,
        });
    }
    let a = emit_nothing(work, level, limit, kind, span, next);
    let Ok(_) = a else {
        return a;
    };
    emit_op(work, level, limit, Op::RETURN, span, next)
}

pub fn implicit_return(work: &mut Work<'_>, level: usize, limit: usize, next: usize) -> Step
    requires { Fit (areas work.old) level limit }
    ensures does { (class : ℕ) → Did class limit level next steady (implicit_return limit) (areas work.old) (areas work.new) result }
    ensures same { SameAreas work.old work.new }
{
    if ends_in(&*work, level) {
        return Ok(next);
    }
    return_nothing(work, level, limit, Span { start: 0, end: 0 }, next)
}

// An upvalue as a closure has it: whether it is a local of the function around, and its index.
pub fn emit_pair(work: &mut Work<'_>, level: usize, limit: usize, w: u64, span: Span) -> Step
    requires { (Fit (areas work.old) level limit) × (w < 512) }
    ensures does { PairedAt limit level w span (areas work.old) (areas work.new) result }
    ensures same { SameAreas work.old work.new }
{
    let a = emit_op(work, level, limit, (w / 256) as u8, span, 0);
    let Ok(_) = a else {
        return a;
    };
    emit_op(work, level, limit, (w % 256) as u8, span, 0)
}

// The upvalues of the level above, whose function is just finished.
pub fn emit_upvalues(
    work: &mut Work<'_>,
    level: usize,
    limit: usize,
    span: Span,
    next: usize,
) -> Step
    requires { (Fit (areas work.old) level limit) × (level + 1 < levels) }
    ensures does { (class : ℕ) → Did class limit level next steady (emit_upvalues limit (upvalues_of work.old.table.now (level + 1)) span) (areas work.old) (areas work.new) result }
    ensures same { SameAreas work.old work.new }
{
    let n = work.table[(level + 1) * Table::LEVEL_WORDS + Table::UPVALUE_COUNT] as usize;
    for i in 0..n {
        let w = work.table[(level + 1) * Table::LEVEL_WORDS + (Table::UPVALUES + i)];
        let a = emit_pair(work, level, limit, w, span);
        let Ok(_) = a else {
            return a;
        };
    }
    Ok(next)
}

// The script's context, whatever the table held.
pub fn begin_script(t: &mut [u64])
    requires { length t.old ≡ table_words }
    ensures { Started t.new }
{
    state_levels::clear_levels(t);
    t[Table::NAME] = Name::SCRIPT as u64;
    t[Table::CODE_FROM] = 0;
    t[Table::RUNS_FROM] = 0;
    t[Table::ARITY] = 0;
    t[Table::TYPE] = Kind::Script as u64;
    t[Table::CODE_END] = 0;
    t[Table::RUNS_END] = 0;
    t[Table::FUNCTIONS] = 0;
    t[Table::IMAGE_BYTES] = 0;
}
