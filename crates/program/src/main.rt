// The program: a tree file from standard input, its image to standard output; a refusal is its number and a line end. A tree of more than 65,536
// bytes is answered 2. The areas are room enough for every tree that is not longer (crates/rules_laws, Bounds `room_that_suffices`): 1, 30 and 31
// never come. No contract can say what standard input has and standard output gets: `lend` says, of every reader and writer that tell, what is
// written of what is read.
#![tactic(auto)]

ghost use Rattle.std.specs.Prelude.{◌<◌, length, OnOk};
ghost use Rattle.std.specs.Io.KnownBytes.{Appends};
ghost use Rattle.program.specs.Program.{most, areas, Answered, shown, Wrote};

use answers::refused;
use reading::read_full;
use rules::{Answer, Refusal};
use state::Table;
use std::io;
use std::io::{Read, Write};

// No longer tree is compiled.
const MOST: usize = 65536;

fn answer(
    tree: &[u8],
    out: &mut [u8],
    table: &mut [u64],
    code: &mut [u8],
    spans: &mut [u32],
) -> Answer
    ensures { Answered tree.now (record { options = 0; table_words = length table.old; code_bytes = length code.old; span_words = length spans.old; output_bytes = length out.old }) result out.new }
{
    if MOST < tree.len() {
        return refused(Refusal::TreeTooLong);
    }
    entry::compile(tree, 0, out, table, code, spans)
}

// A refusal's number and a line end, or the image, which is the front of the output.
fn show<W: Write>(output: &mut W, a: Answer, out: &[u8]) -> io::Result<()>
    ensures { OnOk result (Appends (W.contents output.old) (W.contents output.new) (shown a out.now)) }
{
    if a.number != 0 {
        let number = a.number;
        return writeln!(output, "{number}");
    }
    let n = (a.length as usize).min(out.len());
    output.write_all(&out[..n])
}

// Into more room than the longest tree takes, so that a longer one is seen to be.
fn run<R: Read, W: Write>(
    input: &mut R,
    output: &mut W,
    tree: &mut [u8],
    out: &mut [u8],
    table: &mut [u64],
    code: &mut [u8],
    spans: &mut [u32],
) -> io::Result<()>
    ensures { most < length tree.old → OnOk result (Wrote (R.remaining input.old) (record { options = 0; table_words = length table.old; code_bytes = length code.old; span_words = length spans.old; output_bytes = length out.old }) (W.contents output.old) (W.contents output.new)) }
{
    let n = read_full(input, tree)?;
    let a = answer(&tree[..n], out, table, code, spans);
    show(output, a, out)
}

// One byte more than the longest tree; for each byte of that tree 17 of output, one of code and three words of spans.
fn lend<R: Read, W: Write>(
    input: &mut R,
    output: &mut W,
    tree: &mut [u8; 65537],
    out: &mut [u8; 1114112],
    table: &mut [u64; Table::WORDS],
    code: &mut [u8; 65536],
    spans: &mut [u32; 196608],
) -> io::Result<()>
    ensures { OnOk result (Wrote (R.remaining input.old) areas (W.contents output.old) (W.contents output.new)) }
{
    run(input, output, tree, out, table, code, spans)
}

fn main(rt: HostRuntime) -> io::Result<()> {
    let mut tree = [0u8; 65537];
    let mut out = [0u8; 1114112];
    let mut table = [0u64; Table::WORDS];
    let mut code = [0u8; 65536];
    let mut spans = [0u32; 196608];
    lend(
        &mut rt.reader(),
        &mut io::writer(&rt),
        &mut tree,
        &mut out,
        &mut table,
        &mut code,
        &mut spans,
    )
}
