// The whole: from a tree file to its image or a refusal, over areas that the caller lends. What the output holds in the end is the image and then
// zeros, or after a refusal only zeros; the work areas end all zero.
#![tactic(auto)]

ghost use Rattle.std.specs.Prelude.{◌≡◌, length, Ok};
ghost use Rattle.rules.specs.Limits.{first_limits};
ghost use Rattle.rules.specs.Entry as rules;
ghost use Rattle.tree.specs.Checked.{checked_file};
ghost use Rattle.state.specs.Layout.{table_words};
ghost use Rattle.steps.specs.View.{areas, SameAreas, Fit, steady, Did};
ghost use Rattle.entry_parts.specs.Ends.{lent_of};
ghost use Rattle.entry.specs.Whole.{limit_of, rows_at, Rows, Clean, script_end, Scripted, Written};

use answers::outside;
use entry_parts::{code_limit, end_call, finish_image, stopped_of};
use op::Op;
use rules::{Answer, Refusal, Span, Stopped};
use state::Table;
use statements::compile_stmts;
use step_bytes::emit_op;
use steps::{Class, Step, Work};
use stmt_functions::finish_in;
use tree::Script;

// ## The script

// The script returns nil.
fn end_script(work: &mut Work<'_>, limit: usize) -> Step
    requires { Fit (areas work.old) 0 limit }
    ensures does { Did 0 limit 0 0 steady (script_end limit) (areas work.old) (areas work.new) result }
    ensures same { SameAreas work.old work.new }
{
    let span = Span { start: 0, end: 0 };
    let a = emit_op(work, 0, limit, Op::NIL, span, 0);
    let Ok(_) = a else {
        return a;
    };
    emit_op(work, 0, limit, Op::RETURN, span, 0)
}

// The statements from `at` on are the script's, and it is finished last. The answer's value is how long the image is.
fn compile_script(
    tree: &[u8],
    at: usize,
    count: usize,
    work: &mut Work<'_>,
    out: &mut [u8],
    limit: usize,
) -> Step
    requires { (Rows tree.now count at) × (Clean work.old.table.now work.old.code.now work.old.spans.now out.old limit) }
    ensures does { Scripted limit (rows_at tree.now count at) (length tree.now) work.new.table.now out.new result }
    ensures same { SameAreas work.old work.new }
{
    let a = compile_stmts(tree, at, count, work, out, 0, limit, Class::NONE);
    let Ok(_) = a else {
        return a;
    };
    let b = end_script(work, limit);
    let Ok(_) = b else {
        return b;
    };
    finish_in(work, out, 0);
    Ok(6 + work.table[Table::IMAGE_BYTES] as usize)
}

// ## The image

// A sound file, with as much of the table as the compiler needs.
fn compile_sound(
    tree: &[u8],
    script: Script,
    options: u32,
    out: &mut [u8],
    t: &mut [u64],
    code: &mut [u8],
    spans: &mut [u32],
) -> Result<usize, Stopped>
    requires { (checked_file tree.now ≡ Ok script) × (length t.old ≡ table_words) }
    ensures { Written options (rules.compile_tree first_limits tree.now (limit_of code.old spans.old)) out.new result }
{
    let limit = code_limit(code.len(), spans.len());
    areas::clear8(out);
    step_returns::begin_script(t);
    let mut work = Work {
        table: t,
        code,
        spans,
    };
    let r = compile_script(
        tree,
        script.at,
        script.count as usize,
        &mut work,
        out,
        limit,
    );
    match r {
        Ok(n) => finish_image(out, n, work.table[Table::FUNCTIONS], options),
        Err(why) => Err(stopped_of(&work.table[..], why)),
    }
}

// 1, then 2 to 5 over the whole file, and then what a sound file comes to.
fn compile_lent(
    tree: &[u8],
    options: u32,
    out: &mut [u8],
    table: &mut [u64],
    code: &mut [u8],
    spans: &mut [u32],
) -> Result<usize, Stopped>
    ensures { Written options (rules.compile_lent first_limits tree.now (lent_of options table.old code.old spans.old out.old)) out.new result }
{
    if table.len() < Table::WORDS {
        return Err(outside(Refusal::WorkShort));
    }
    match tree::read(tree) {
        Err(x) => Err(outside(x)),
        Ok(script) => {
            compile_sound(
                tree,
                script,
                options,
                out,
                &mut table[..Table::WORDS],
                code,
                spans,
            )
        }
    }
}

// The entry. Whatever the answer, what the work areas held is gone.
pub fn compile(
    tree: &[u8],
    options: u32,
    out: &mut [u8],
    table: &mut [u64],
    code: &mut [u8],
    spans: &mut [u32],
) -> Answer
    ensures { record { answer = result; output = out.new; table = table.new; code = code.new; spans = spans.new } ≡ rules.compile tree.now (record { options = options; table_words = length table.old; code_bytes = length code.old; span_words = length spans.old; output_bytes = length out.old }) }
{
    let made = compile_lent(tree, options, out, table, code, spans);
    end_call(made, out, table, code, spans)
}
