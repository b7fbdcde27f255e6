// A byte behind the code with its run, and a constant behind a level's constants.
#![tactic(auto)]

ghost use Rattle.std.specs.Prelude.{◌≡◌, ◌*◌, ◌≤◌, ◌<◌, length};
ghost use Rattle.state.specs.Layout.{levels, Wf, Coded};
ghost use Rattle.state.specs.Meaning.{last_grows, Wrote, Constants};

use rules::{Limit, Span};
use state::{Full, Table};
use state_scan::first;

// Whether the last run, of those from first up to m, grows by a byte of this span.
pub fn can_grow(spans: &[u32], first: usize, m: usize, span: Span) -> bool
    requires { m * 3 ≤ length spans.now }
    ensures { result ≡ last_grows spans.now first m span }
{
    if m <= first {
        return false;
    }
    let at = (m - 1) * 3;
    if spans[at] != span.start {
        return false;
    }
    if spans[at + 1] != span.end {
        return false;
    }
    spans[at + 2] < Limit::RUN
}

pub fn emit_u8(
    t: &mut [u64],
    code: &mut [u8],
    spans: &mut [u32],
    level: usize,
    limit: usize,
    byte: u8,
    span: Span,
) -> Result<(), Full>
    requires { (level < levels) × (Wf t.old) × (Coded t.old code.old spans.old level limit) }
    ensures { Wrote t.old code.old spans.old t.new code.new spans.new level limit byte span result }
{
    let n = t[Table::CODE_END] as usize;
    if limit <= n {
        return Err(Full);
    }
    let first = t[level * Table::LEVEL_WORDS + Table::RUNS_FROM] as usize;
    let m = t[Table::RUNS_END] as usize;
    code[n] = byte;
    t[Table::CODE_END] = (n + 1) as u64;
    if can_grow(&spans[..], first, m, span) {
        let at = (m - 1) * 3 + 2;
        spans[at] = spans[at] + 1;
        return Ok(());
    }
    spans[m * 3] = span.start;
    spans[m * 3 + 1] = span.end;
    spans[m * 3 + 2] = 1;
    t[Table::RUNS_END] = (m + 1) as u64;
    Ok(())
}

// The place of a constant, an equal one's where there is one.
pub fn write_constant(t: &mut [u64], level: usize, w: u64) -> Result<u8, Full>
    requires { (level < levels) × (Wf t.old) }
    ensures { Constants t.old t.new level w result }
{
    let base = level * Table::LEVEL_WORDS + Table::CONSTANTS;
    let count = level * Table::LEVEL_WORDS + Table::CONSTANT_COUNT;
    let n = t[count] as usize;
    let place = first(&t[base..base + n], w);
    if let Some(i) = place {
        return Ok(i as u8);
    }
    if Limit::CONSTANTS <= n {
        return Err(Full);
    }
    t[base + n] = w;
    t[count] = (n + 1) as u64;
    Ok(n as u8)
}
