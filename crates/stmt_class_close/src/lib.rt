// A class after its methods: it goes from the stack where it had some, and the scope of `super` is ended where one was begun.
#![tactic(auto)]

ghost use Rattle.std.specs.Prelude.{◌≡◌, ℕ, ◌+◌, ◌*◌, ◌≤◌, ◌<◌, length, get_or, ltb, if◌then◌else◌};
ghost use Rattle.rules.specs.Op as ops;
ghost use Rattle.rules.specs.Compiler.{done, emit_op};
ghost use Rattle.fields.specs.Words.{word8, word16};
ghost use Rattle.state.specs.Layout.{depth_place, level_words};
ghost use Rattle.steps.specs.View.{areas, SameAreas, Fit, steady, Did};
ghost use Rattle.stmt_heads.specs.Classes.{ClassHead, ClassClosed};

use fields::{u8_at, u16_at};
use op::Op;
use rules::Span;
use step_bytes::emit_op;
use step_scopes::end_scope;
use steps::{Step, Work};

// The class goes from the stack where it had methods.
fn drop_class(
    tree: &[u8],
    at: usize,
    work: &mut Work<'_>,
    level: usize,
    limit: usize,
    span: Span,
    next: usize,
) -> Step
    requires { (at + 15 ≤ length tree.now) × (Fit (areas work.old) level limit) }
    ensures does { (class : ℕ) → Did class limit level next steady (if ltb 0 (word16 tree.now (at + 13)) then emit_op limit ops.POP span else done) (areas work.old) (areas work.new) result }
    ensures same { SameAreas work.old work.new }
{
    if u16_at(tree, at + 13) == 0 {
        return Ok(next);
    }
    emit_op(work, level, limit, Op::POP, span, next)
}

// A class after its methods.
pub fn close_class(
    tree: &[u8],
    at: usize,
    work: &mut Work<'_>,
    level: usize,
    limit: usize,
    span: Span,
    next: usize,
) -> Step
    requires { (ClassHead tree.now at) × (Fit (areas work.old) level limit) × (word8 tree.now (at + 12) ≡ 1 → 0 < get_or work.old.table.now (level * level_words + depth_place) 0) }
    ensures does { (class : ℕ) → ClassClosed class limit level tree.now at next span (areas work.old) (areas work.new) result }
    ensures same { SameAreas work.old work.new }
{
    let a = drop_class(tree, at, work, level, limit, span, next);
    let Ok(_) = a else {
        return a;
    };
    if u8_at(tree, at + 12) == 1 {
        return end_scope(work, level, limit, Span { start: 0, end: 0 }, next);
    }
    Ok(next)
}
