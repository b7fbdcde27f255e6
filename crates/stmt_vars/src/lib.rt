// A `var`. That the bytes are a tree is known: each function says what it does where the rules' reader reads something, and the function of the kind asks for
// its mark.
#![tactic(auto)]

ghost use Rattle.std.specs.Prelude.{◌≡◌, ℕ, ◌<◌};
ghost use Rattle.fields.specs.Words.{letters};
ghost use Rattle.state.specs.Layout.{levels, Wf};
ghost use Rattle.steps.specs.View.{areas, SameAreas, Fit, steady, Did, Tried};
ghost use Rattle.stmt_output_laws.specs.Output.{stmt_at};
ghost use Rattle.stmt_plain_laws.specs.Plain.{StmtSomewhere, Plainly, Announced, ValueRan, open_var, close_var};
ghost use Rattle.fields.specs.Marks as marks;

use expressions::compile_expr;
use fields::{span_at, u8_at, u16_at};
use op::Op;
use rules::Span;
use step_bytes::{emit_op, emit_op_name};
use step_scopes::{declare_local, define_local, is_global_in};
use steps::{Step, Work};

// The value at `at`, or NIL where the flag before it says that there is none.
fn compile_value(
    tree: &[u8],
    at: usize,
    flag: u8,
    work: &mut Work<'_>,
    level: usize,
    limit: usize,
    class: u8,
    span: Span,
) -> Step
    requires { (Announced tree.now at flag) × (Fit (areas work.old) level limit) }
    ensures does { (d : ℕ) → ValueRan class limit level tree.now d at flag span (areas work.old) (areas work.new) result }
    ensures same { SameAreas work.old work.new }
{
    if flag == 0 {
        return emit_op(work, level, limit, Op::NIL, span, at);
    }
    compile_expr(tree, at, work, level, limit, class)
}

// A local is declared before its value, so that the value cannot name it.
fn open_var(t: &mut [u64], level: usize, global: bool, name: u16, span: Span, next: usize) -> Step
    requires { (level < levels) × (Wf t.old) }
    ensures { Tried level next steady (open_var global name span) t.old t.new result }
{
    if global {
        return Ok(next);
    }
    declare_local(t, level, name, span, next)
}

fn close_var(
    work: &mut Work<'_>,
    level: usize,
    limit: usize,
    global: bool,
    name: u16,
    span: Span,
    next: usize,
) -> Step
    requires { Fit (areas work.old) level limit }
    ensures does { (class : ℕ) → Did class limit level next steady (close_var limit global name span) (areas work.old) (areas work.new) result }
    ensures same { SameAreas work.old work.new }
{
    if global {
        return emit_op_name(work, level, limit, Op::DEFINE_GLOBAL, name, span, next);
    }
    define_local(work.table, level);
    Ok(next)
}

pub fn compile_var(
    tree: &[u8],
    at: usize,
    work: &mut Work<'_>,
    level: usize,
    limit: usize,
    class: u8,
) -> Step
    requires { (StmtSomewhere tree.now level at) × (letters tree.now at ≡ marks.SV) × (Fit (areas work.old) level limit) }
    ensures does { (d : ℕ) → Plainly class limit level (stmt_at tree.now d level at) (areas work.old) (areas work.new) result }
    ensures same { SameAreas work.old work.new }
{
    let span = span_at(tree, at + 2);
    let name = u16_at(tree, at + 10);
    let flag = u8_at(tree, at + 12);
    let global = is_global_in(&*work, level);
    let a = open_var(work.table, level, global, name, span, at + 13);
    let Ok(_) = a else {
        return a;
    };
    let b = compile_value(tree, at + 13, flag, work, level, limit, class, span);
    let Ok(n) = b else {
        return b;
    };
    close_var(work, level, limit, global, name, span, n)
}
