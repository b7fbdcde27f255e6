// The statements that are an expression and what is done with its value. That the bytes are a tree is known: each function says what it does where the
// rules' reader reads something, and asks for the mark of its kind.
#![tactic(auto)]

ghost use Rattle.std.specs.Prelude.{◌≡◌, ℕ};
ghost use Rattle.fields.specs.Words.{letters};
ghost use Rattle.steps.specs.View.{areas, SameAreas, Fit};
ghost use Rattle.stmt_output_laws.specs.Output.{stmt_at};
ghost use Rattle.stmt_plain_laws.specs.Plain.{StmtSomewhere, Taken, Plainly};
ghost use Rattle.fields.specs.Marks as marks;

use expressions::compile_expr;
use fields::span_at;
use op::Op;
use step_bytes::emit_op;
use steps::{Step, Work};

// The expression behind the statement's head, and then the instruction that takes its value: which one, the statement's mark says.
fn value_then(
    tree: &[u8],
    at: usize,
    work: &mut Work<'_>,
    level: usize,
    limit: usize,
    class: u8,
    instruction: u8,
) -> Step
    requires { (StmtSomewhere tree.now level at) × (Taken tree.now at instruction) × (Fit (areas work.old) level limit) }
    ensures does { (d : ℕ) → Plainly class limit level (stmt_at tree.now d level at) (areas work.old) (areas work.new) result }
    ensures same { SameAreas work.old work.new }
{
    let span = span_at(tree, at + 2);
    let a = compile_expr(tree, at + 10, work, level, limit, class);
    let Ok(n) = a else {
        return a;
    };
    emit_op(work, level, limit, instruction, span, n)
}

pub fn stmt_expr(
    tree: &[u8],
    at: usize,
    work: &mut Work<'_>,
    level: usize,
    limit: usize,
    class: u8,
) -> Step
    requires { (StmtSomewhere tree.now level at) × (letters tree.now at ≡ marks.SE) × (Fit (areas work.old) level limit) }
    ensures does { (d : ℕ) → Plainly class limit level (stmt_at tree.now d level at) (areas work.old) (areas work.new) result }
    ensures same { SameAreas work.old work.new }
{
    value_then(tree, at, work, level, limit, class, Op::POP)
}

pub fn stmt_print(
    tree: &[u8],
    at: usize,
    work: &mut Work<'_>,
    level: usize,
    limit: usize,
    class: u8,
) -> Step
    requires { (StmtSomewhere tree.now level at) × (letters tree.now at ≡ marks.SP) × (Fit (areas work.old) level limit) }
    ensures does { (d : ℕ) → Plainly class limit level (stmt_at tree.now d level at) (areas work.old) (areas work.new) result }
    ensures same { SameAreas work.old work.new }
{
    value_then(tree, at, work, level, limit, class, Op::PRINT)
}
