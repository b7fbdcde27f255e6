// A function's record is put into the output.
#![tactic(auto)]

ghost use Rattle.std.specs.Prelude.{◌≡◌, ◌+◌, ◌*◌, ◌≤◌, get_or};
ghost use Rattle.rules.specs.Limits.{max_tree};
ghost use Rattle.rules.specs.Compiler as rules;
ghost use Rattle.rules.specs.Image.{function_bytes};
ghost use Rattle.state.specs.Layout.{image_at, end_of_code, end_of_runs, ctx_at};
ghost use Rattle.steps.specs.View.{SameAreas};
ghost use Rattle.writer.specs.Put.{Put, Closed};
ghost use Rattle.stmt_output_laws.specs.Output.{largest};
ghost use Rattle.stmt_records.specs.Filed.{Filed};

use state::Table;
use steps::Work;
use writer::put_function;

// The record of the function that stands at `level`; the answer is where it ends.
fn put_record(out: &mut [u8], at: usize, work: &Work<'_>, level: usize) -> usize
    requires { (Closed work.now.table.now work.now.code.now work.now.spans.now level) × (at ≤ 576460752303423488) }
    ensures { Put out.old out.new at (function_bytes (rules.finish (ctx_at work.now.table.now work.now.code.now work.now.spans.now level (end_of_code work.now.table.now) (end_of_runs work.now.table.now)))) result }
{
    put_function(out, at, work.table, work.code, work.spans, level)
}

// The function that stands at `level` is put behind the others, and counted. The output's first six bytes are the header's.
pub fn finish(t: &mut [u64], code: &[u8], spans: &[u32], out: &mut [u8], level: usize)
    requires { (Closed t.old code.now spans.now level) × (get_or t.old image_at 0 ≤ max_tree) × (get_or t.old (image_at + 1) 0 ≤ max_tree * largest) }
    ensures { Filed level t.old code.now spans.now out.old t.new out.new }
{
    let long = t[Table::IMAGE_BYTES] as usize;
    let next = put_function(out, 6 + long, &t[..], code, spans, level);
    t[Table::IMAGE_BYTES] = (next - 6) as u64;
    t[Table::FUNCTIONS] = t[Table::FUNCTIONS] + 1;
}

// The same of the areas, whose code and runs stay as they are. It does not call `finish`: of a slice that is lent out of the areas and given back the proof
// knows nothing.
pub fn finish_in(work: &mut Work<'_>, out: &mut [u8], level: usize)
    requires { (Closed work.old.table.now work.old.code.now work.old.spans.now level) × (get_or work.old.table.now image_at 0 ≤ max_tree) × (get_or work.old.table.now (image_at + 1) 0 ≤ max_tree * largest) }
    ensures does { Filed level work.old.table.now work.old.code.now work.old.spans.now out.old work.new.table.now out.new }
    ensures same { SameAreas work.old work.new }
    ensures code { work.new.code.now ≡ work.old.code.now }
    ensures spans { work.new.spans.now ≡ work.old.spans.now }
{
    let long = work.table[Table::IMAGE_BYTES] as usize;
    let next = put_record(out, 6 + long, &*work, level);
    work.table[Table::IMAGE_BYTES] = (next - 6) as u64;
    work.table[Table::FUNCTIONS] = work.table[Table::FUNCTIONS] + 1;
}
