// A `return`. That the bytes are a tree is known: each function says what it does where the rules' reader reads something, and the function of the kind asks
// for its mark.
#![tactic(auto)]

ghost use Rattle.std.specs.Prelude.{◌≡◌, ℕ, ◌<◌};
ghost use Rattle.fields.specs.Words.{letters};
ghost use Rattle.state.specs.Layout.{levels, Wf};
ghost use Rattle.steps.specs.View.{areas, SameAreas, Fit, steady, Tried};
ghost use Rattle.stmt_output_laws.specs.Output.{stmt_at};
ghost use Rattle.stmt_plain_laws.specs.Plain.{StmtSomewhere, Plainly, may_return};
ghost use Rattle.fields.specs.Marks as marks;

use expressions::compile_expr;
use fields::{span_at, u8_at};
use op::Op;
use rules::Span;
use state::{Kind, Table};
use step_bytes::emit_op;
use step_returns::return_nothing;
use steps::{Reason, Step, Why, Work};

// As words of the table.
const SCRIPT: u64 = Kind::Script as u64;

const INITIALIZER: u64 = Kind::Initializer as u64;

// A value is returned by a function and by a method that is no initializer.
fn return_kind(work: &Work<'_>, level: usize, span: Span, next: usize) -> Step
    requires { (level < levels) × (Wf work.now.table.now) }
    ensures { Tried level next steady (may_return span) work.now.table.now work.now.table.now result }
{
    let kind = work.table[level * Table::LEVEL_WORDS + Table::TYPE];
    if kind == SCRIPT {
        return Err(Why {
            reason: Reason::ReturnOutsideFunction,
            span,
            name: 0,
            around: level,
        });
    }
    if INITIALIZER <= kind {
        return Err(Why {
            reason: Reason::ReturnInInitializer,
            span,
            name: 0,
            around: level,
        });
    }
    Ok(next)
}

pub fn compile_return(
    tree: &[u8],
    at: usize,
    work: &mut Work<'_>,
    level: usize,
    limit: usize,
    class: u8,
) -> Step
    requires { (StmtSomewhere tree.now level at) × (letters tree.now at ≡ marks.SR) × (Fit (areas work.old) level limit) }
    ensures does { (d : ℕ) → Plainly class limit level (stmt_at tree.now d level at) (areas work.old) (areas work.new) result }
    ensures same { SameAreas work.old work.new }
{
    let span = span_at(tree, at + 2);
    if u8_at(tree, at + 10) == 0 {
        return return_nothing(work, level, limit, span, at + 11);
    }
    let a = return_kind(&*work, level, span, at + 11);
    let Ok(_) = a else {
        return a;
    };
    let b = compile_expr(tree, at + 11, work, level, limit, class);
    let Ok(n) = b else {
        return b;
    };
    emit_op(work, level, limit, Op::RETURN, span, n)
}
