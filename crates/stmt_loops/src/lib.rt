// The condition and the increment of a `for`. Either may be missing; the record's byte `parts` says which of them are there.
#![tactic(auto)]

ghost use Rattle.std.specs.Prelude.{ℕ};
ghost use Rattle.steps.specs.View.{areas, SameAreas, Fit};
ghost use Rattle.stmt_loops.specs.Loops.{cond_at, incr_at, CondThere, IncrThere, Conditioned, Incremented};

use expressions::compile_expr;
use op::Op;
use rules::Span;
use step_bytes::emit_op;
use steps::{Step, Why, Work};
use stmt_jumps::open_jump;

// After a condition: where to read on, and where there is a condition the place of the operand of its jump past the loop.
#[derive(Drop)]
pub struct Cond {
    pub next: usize,
    pub exit: Option<usize>,
}

// The condition that starts at `at`, and a jump past the loop where its value is false.
pub fn for_cond(
    tree: &[u8],
    at: usize,
    parts: u8,
    work: &mut Work<'_>,
    level: usize,
    limit: usize,
    class: u8,
    span: Span,
) -> Result<Cond, Why>
    requires { (CondThere tree.now parts at) × (Fit (areas work.old) level limit) }
    ensures does { (d : ℕ) → Conditioned class limit level (cond_at tree.now parts d at) span (areas work.old) (areas work.new) result }
    ensures same { SameAreas work.old work.new }
{
    if parts / 2 % 2 != 1 {
        return Ok(Cond {
            next: at,
            exit: None,
        });
    }
    let a = compile_expr(tree, at, work, level, limit, class);
    let next = match a {
        Ok(end) => end,
        Err(why) => return Err(why),
    };
    let b = open_jump(work, level, limit, span);
    let place = match b {
        Ok(place) => place,
        Err(why) => return Err(why),
    };
    Ok(Cond {
        next,
        exit: Some(place),
    })
}

// The increment that starts at `at`; its value is dropped.
pub fn for_incr(
    tree: &[u8],
    at: usize,
    parts: u8,
    work: &mut Work<'_>,
    level: usize,
    limit: usize,
    class: u8,
    span: Span,
) -> Step
    requires { (IncrThere tree.now parts at) × (Fit (areas work.old) level limit) }
    ensures does { (d : ℕ) → Incremented class limit level (incr_at tree.now parts d at) span (areas work.old) (areas work.new) result }
    ensures same { SameAreas work.old work.new }
{
    if parts / 4 != 1 {
        return Ok(at);
    }
    let a = compile_expr(tree, at, work, level, limit, class);
    let Ok(end) = a else {
        return a;
    };
    emit_op(work, level, limit, Op::POP, span, end)
}
