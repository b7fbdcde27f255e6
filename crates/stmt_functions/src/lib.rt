// A function is begun, and it is finished: put into the output, and a closure made of it. `level` is the function around; the one that is begun or
// finished is at the level above.
#![tactic(auto)]

ghost use Rattle.std.specs.Prelude.{ℕ, ◌+◌, ◌*◌, ◌≤◌, ◌<◌, get_or};
ghost use Rattle.rules.specs.Limits.{max_code, max_tree};
ghost use Rattle.state.specs.Layout.{levels, image_at};
ghost use Rattle.steps.specs.View.{areas, SameAreas, Fit};
ghost use Rattle.stmt_output_laws.specs.Output.{largest};
ghost use Rattle.stmt_functions.specs.Functions.{FunctionClosed};

use rules::Span;
use state::Table;
use step_returns::implicit_return;
use steps::{Step, Work};
use stmt_closures::emit_closure;
pub use stmt_opening::open_function;
pub use stmt_records::{finish, finish_in};

// The function above `level` after its statements. It is put into the output before its level is left; its number is how many were finished before it.
pub fn close_function(
    work: &mut Work<'_>,
    out: &mut [u8],
    level: usize,
    limit: usize,
    span: Span,
    next: usize,
) -> Step
    requires { (level + 1 < levels) × (Fit (areas work.old) (level + 1) limit) × (limit ≤ max_code) × (get_or work.old.table.now image_at 0 ≤ max_tree) × (get_or work.old.table.now (image_at + 1) 0 ≤ max_tree * largest) }
    ensures does { (class : ℕ) → FunctionClosed class limit level next span (areas work.old) out.old (areas work.new) out.new result }
    ensures same { SameAreas work.old work.new }
{
    let a = implicit_return(work, level + 1, limit, next);
    let Ok(_) = a else {
        return a;
    };
    let number = work.table[Table::FUNCTIONS] as u32;
    finish_in(work, out, level + 1);
    state_levels::end_ctx(work.table, level + 1);
    emit_closure(work, level, limit, number, span, next)
}
