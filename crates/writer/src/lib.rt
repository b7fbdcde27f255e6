// The image writer: a function's record put behind what the output holds so far. The header, and a number alone, are put by the crates beneath and
// passed on.
#![tactic(auto)]

ghost use Rattle.std.specs.Prelude.{◌+◌, ◌≤◌};
ghost use Rattle.rules.specs.Image.{function_bytes};
ghost use Rattle.rules.specs.Compiler as rules;
ghost use Rattle.state.specs.Layout.{end_of_code, end_of_runs, ctx_at};
ghost use Rattle.writer.specs.Put.{Put, Closed, head_bytes};

use fields::Mark;
use state::Table;
pub use writer_bytes::put_le;
use writer_bytes::{put_code, put_mark};
use writer_constants::put_constants;
pub use writer_header::put_header;
use writer_runs::put_runs;

// A function's record up to its constants.
pub fn put_head(
    out: &mut [u8],
    at: usize,
    name: u64,
    arity: u64,
    upvalues: u64,
    constants: u64,
    runs: u64,
    code: u64,
) -> usize
    requires { at + 17 ≤ 1152921504606846976 }
    ensures { Put out.old out.new at (head_bytes name arity upvalues constants runs code) result }
{
    let a = put_mark(out, at, Mark::FUNCTION);
    let b = put_le(out, a, name, 2);
    let c = put_le(out, b, arity, 1);
    let d = put_le(out, c, upvalues, 2);
    let e = put_le(out, d, constants, 2);
    let f = put_le(out, e, runs, 4);
    put_le(out, f, code, 4)
}

// The function that is open at a level, as it stands.
pub fn put_function(
    out: &mut [u8],
    at: usize,
    t: &[u64],
    code: &[u8],
    spans: &[u32],
    level: usize,
) -> usize
    requires { (Closed t.now code.now spans.now level) × (at ≤ 576460752303423488) }
    ensures { Put out.old out.new at (function_bytes (rules.finish (ctx_at t.now code.now spans.now level (end_of_code t.now) (end_of_runs t.now)))) result }
{
    let base = level * Table::LEVEL_WORDS;
    let constants = t[base + Table::CONSTANT_COUNT] as usize;
    let code_from = t[base + Table::CODE_FROM] as usize;
    let code_end = t[Table::CODE_END] as usize;
    let runs_from = t[base + Table::RUNS_FROM] as usize;
    let runs_end = t[Table::RUNS_END] as usize;
    let a = put_head(
        out,
        at,
        t[base + Table::NAME],
        t[base + Table::ARITY],
        t[base + Table::UPVALUE_COUNT],
        constants as u64,
        (runs_end - runs_from) as u64,
        (code_end - code_from) as u64,
    );
    let first = base + Table::CONSTANTS;
    let b = put_constants(out, a, &t[first..first + constants]);
    let c = put_runs(out, b, &spans[runs_from * 3..runs_end * 3]);
    let d = put_mark(out, c, Mark::CODE);
    put_code(out, d, &code[code_from..code_end])
}
