// The statements that hold no statement: of the four kinds, the one whose mark stands there.
#![tactic(auto)]

ghost use Rattle.std.specs.Prelude.{ℕ};
ghost use Rattle.steps.specs.View.{areas, SameAreas, Fit};
ghost use Rattle.stmt_output_laws.specs.Output.{stmt_at};
ghost use Rattle.stmt_plain_laws.specs.Plain.{StmtSomewhere, NoOther, Plainly};

use fields::{Mark, mark_at};
use steps::{Step, Work};
use stmt_returns::compile_return;
use stmt_values::{stmt_expr, stmt_print};
use stmt_vars::compile_var;

pub fn compile_plain(
    tree: &[u8],
    at: usize,
    work: &mut Work<'_>,
    level: usize,
    limit: usize,
    class: u8,
) -> Step
    requires { (StmtSomewhere tree.now level at) × (NoOther tree.now at) × (Fit (areas work.old) level limit) }
    ensures does { (d : ℕ) → Plainly class limit level (stmt_at tree.now d level at) (areas work.old) (areas work.new) result }
    ensures same { SameAreas work.old work.new }
{
    let mark = mark_at(tree, at);
    if mark == Mark::EXPRESSION {
        return stmt_expr(tree, at, work, level, limit, class);
    }
    if mark == Mark::PRINT {
        return stmt_print(tree, at, work, level, limit, class);
    }
    if mark == Mark::VAR {
        return compile_var(tree, at, work, level, limit, class);
    }
    compile_return(tree, at, work, level, limit, class)
}
