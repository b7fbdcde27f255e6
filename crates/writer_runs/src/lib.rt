// Runs put into the output: room for a run is tested once.
#![tactic(auto)]

ghost use Rattle.std.specs.Prelude.{◌+◌, ◌*◌, ◌/◌, ◌≤◌, length};
ghost use Rattle.rules.specs.Image.{join, run_bytes};
ghost use Rattle.state.specs.Layout.{row, run_at};
ghost use Rattle.writer_bytes.specs.Put.{Put};
ghost use Rattle.writer_runs.specs.Runs.{run_of};

use fields::{Mark, has};
use writer_bytes::{put_le, put_mark, set_le, set_mark};

// A run of code bytes with one span, where there is room.
fn set_run(out: &mut [u8], at: usize, start: u32, end: u32, count: u32) -> usize
    requires { at + 11 ≤ length out.old }
    ensures { Put out.old out.new at (run_bytes (run_of start end count)) result }
{
    let a = set_mark(out, at, Mark::RUN);
    let b = set_le(out, a, start as u64, 4);
    let c = set_le(out, b, end as u64, 4);
    set_le(out, c, count as u64, 1)
}

// A run of code bytes with one span.
pub fn put_run(out: &mut [u8], at: usize, start: u32, end: u32, count: u32) -> usize
    requires { at + 11 ≤ 1152921504606846976 }
    ensures { Put out.old out.new at (run_bytes (run_of start end count)) result }
{
    if has(&out[..], at, 11) {
        return set_run(out, at, start, end, count);
    }
    let a = put_mark(out, at, Mark::RUN);
    let b = put_le(out, a, start as u64, 4);
    let c = put_le(out, b, end as u64, 4);
    put_le(out, c, count as u64, 1)
}

// The runs, three words each.
pub fn put_runs(out: &mut [u8], at: usize, spans: &[u32]) -> usize
    requires { at + length spans.now / 3 * 11 ≤ 1152921504606846976 }
    ensures { Put out.old out.new at (join run_bytes (row (run_at spans.now) (length spans.now / 3))) result }
{
    let mut next = at;
    for i in 0..spans.len() / 3 {
        next = put_run(out, next, spans[i * 3], spans[i * 3 + 1], spans[i * 3 + 2]);
    }
    next
}
