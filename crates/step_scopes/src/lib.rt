// Scopes and the locals in them, contexts begun and ended: each against the rules' step of its name.
#![tactic(auto)]

ghost use Rattle.std.specs.Prelude.{◌≡◌, ℕ, ◌+◌, ◌*◌, ◌<◌, get_or, if◌then◌else◌};
ghost use Rattle.rules.specs.Compiler.{declare_local, define_local, is_global, begin_scope, end_scope};
ghost use Rattle.rules.specs.Op as ops;
ghost use Rattle.state.specs.Layout.{levels, deepest, local_of, Wf, depth_place, level_words};
ghost use Rattle.steps.specs.View.{areas, SameAreas, Fit, steady, deeper, shallower, Did, Changed, Tried, Asked, PoppedAt, Entered, Left};

use op::Op;
use rules::Span;
use state::{Kind, Table, Undeclared};
use steps::{Reason, Step, Why, Work};

pub fn begin_scope(t: &mut [u64], level: usize)
    requires { (level < levels) × (Wf t.old) × (get_or t.old (level * level_words + depth_place) 0 < deepest) }
    ensures { Changed level deeper begin_scope t.old t.new }
{
    let depth = t[level * Table::LEVEL_WORDS + Table::DEPTH];
    state_levels::move_scope(t, level, depth + 1);
}

pub fn is_global(t: &[u64], level: usize) -> bool
    requires { (level < levels) × (Wf t.now) }
    ensures { Asked level is_global result t.now }
{
    t[level * Table::LEVEL_WORDS + Table::DEPTH] == 0
}

// The same of the areas.
pub fn is_global_in(work: &Work<'_>, level: usize) -> bool
    requires { (level < levels) × (Wf work.now.table.now) }
    ensures { Asked level is_global result work.now.table.now }
{
    is_global(work.table, level)
}

pub fn declare_local(t: &mut [u64], level: usize, name: u16, span: Span, next: usize) -> Step
    requires { (level < levels) × (Wf t.old) }
    ensures { Tried level next steady (declare_local name span) t.old t.new result }
{
    let r = state_names::declare_local(t, level, name);
    match r {
        Ok(()) => Ok(next),
        Err(Undeclared::Already) => Err(Why {
            reason: Reason::AlreadyDefined,
            span,
            name,
            around: level,
        }),
        Err(Undeclared::Full) => Err(Why {
            reason: Reason::TooManyLocals,
            span,
            name: 0,
            around: level,
        }),
    }
}

pub fn define_local(t: &mut [u64], level: usize)
    requires { (level < levels) × (Wf t.old) }
    ensures { Changed level steady define_local t.old t.new }
{
    state_names::define_local(t, level);
}

// The instruction that drops a local: CLOSE_UPVALUE where it was captured.
pub fn drop_op(w: u64) -> u8
    ensures { result ≡ (if (local_of w).is_captured then ops.CLOSE_UPVALUE else ops.POP) }
{
    if w / 65536 / 2 % 2 == 1 {
        return Op::CLOSE_UPVALUE;
    }
    Op::POP
}

// One step of ending a scope: the newest local goes if it lies deeper than the scope. The answer is whether one went: then another may.
pub fn pop_local(work: &mut Work<'_>, level: usize, limit: usize, span: Span) -> Result<bool, Why>
    requires { Fit (areas work.old) level limit }
    ensures does { PoppedAt limit level span (areas work.old) (areas work.new) result }
    ensures same { SameAreas work.old work.new }
{
    let n = work.table[level * Table::LEVEL_WORDS + Table::LOCAL_COUNT] as usize;
    if n == 0 {
        return Ok(false);
    }
    let w = work.table[level * Table::LEVEL_WORDS + (n - 1)];
    let depth = work.table[level * Table::LEVEL_WORDS + Table::DEPTH];
    if w / 65536 / 2 / 2 <= depth {
        return Ok(false);
    }
    let done = state_code::emit_u8(
        work.table,
        work.code,
        work.spans,
        level,
        limit,
        drop_op(w),
        span,
    );
    let Ok(()) = done else {
        return Err(Why {
            reason: Reason::CodeFull,
            span: Span { start: 0, end: 0 },
            name: 0,
            around: level,
        });
    };
    state_names::drop_local(work.table, level);
    Ok(true)
}

pub fn end_scope(work: &mut Work<'_>, level: usize, limit: usize, span: Span, next: usize) -> Step
    requires { (Fit (areas work.old) level limit) × (0 < get_or work.old.table.now (level * level_words + depth_place) 0) }
    ensures does { (class : ℕ) → Did class limit level next shallower (end_scope limit span) (areas work.old) (areas work.new) result }
    ensures same { SameAreas work.old work.new }
{
    let depth = work.table[level * Table::LEVEL_WORDS + Table::DEPTH];
    state_levels::move_scope(work.table, level, depth - 1);
    loop {
        let popped = pop_local(work, level, limit, span);
        match popped {
            Ok(true) => {}
            Ok(false) => return Ok(next),
            Err(why) => return Err(why),
        }
    }
}

// The context of a function is the innermost now, one scope deeper: its level is one more.
pub fn begin_ctx(t: &mut [u64], level: usize, name: u16, arity: u8, kind: u8)
    requires { (level + 1 < levels) × (Wf t.old) × (get_or t.old (level * level_words + depth_place) 0 < deepest) }
    ensures { Entered level name arity kind t.old t.new }
{
    state_levels::begin_ctx(t, level, name, arity, Kind::from(kind));
}

// The function is finished: its level's words stay, its code and runs are no more. Who calls this has taken what the image needs of it, and counts it.
pub fn end_ctx(t: &mut [u64], level: usize)
    requires { (0 < level) × (level < levels) × (Wf t.old) }
    ensures { Left level t.old t.new }
{
    state_levels::end_ctx(t, level);
}
