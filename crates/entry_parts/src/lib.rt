// Parts of the entry that need no compiler: the code limit, what is asked for, which refusal the compiler's answer is, and how a call
// ends.
#![tactic(auto)]

ghost use Rattle.std.specs.Prelude.{◌≡◌, ◌+◌, ◌*◌, ◌/◌, ◌≤◌, min, length, if◌then◌else◌};
ghost use Rattle.rules.specs.Limits.{max_code};
ghost use Rattle.rules.specs.Entry.{asks_directory, leaves};
ghost use Rattle.state.specs.Layout.{table_words, word, name_place};
ghost use Rattle.steps.specs.Why.{refusal_of, told};
ghost use Rattle.entry_parts.specs.Ends.{lent_of, answer_of, output_of, Finished};

use answers::{accepted, outside, refused_in};
use rules::{Answer, Limit, Refusal, Stopped};
use state::Table;
use steps::{Reason, Why};
use writer::put_header;
use writer_directory::put_directory;

// By the code bytes and the span words that are lent.
pub fn code_limit(code: usize, spans: usize) -> usize
    ensures { result ≡ min (min code (spans / 3)) max_code }
{
    code.min(spans / 3).min(Limit::CODE_BYTES)
}

// The image is to end in a directory. The other bits say nothing.
fn asks_directory(options: u32) -> bool
    ensures { result ≡ asks_directory options }
{
    options / 2 % 2 == 1
}

#[tactic(auto, unfolding(steps::specs::Why::refusal_of))]
fn refusal_of(why: Why) -> Refusal
    ensures { result ≡ refusal_of why }
{
    let span = why.span;
    let name = why.name;
    match why.reason {
        Reason::AlreadyDefined => Refusal::AlreadyDefined(span, name),
        Reason::AccessInsideInitializer => Refusal::AccessInsideInitializer(span, name),
        Reason::ClassInheritFromSelf => Refusal::ClassInheritFromSelf(span, name),
        Reason::JumpTooLarge => Refusal::JumpTooLarge(span),
        Reason::TooManyArgs => Refusal::TooManyArgs(span),
        Reason::TooManyConstants => Refusal::TooManyConstants(span),
        Reason::TooManyLocals => Refusal::TooManyLocals(span),
        Reason::TooManyParams => Refusal::TooManyParams(span),
        Reason::TooManyUpvalues => Refusal::TooManyUpvalues(span),
        Reason::ReturnInInitializer => Refusal::ReturnInInitializer(span),
        Reason::ReturnOutsideFunction => Refusal::ReturnOutsideFunction(span),
        Reason::SuperOutsideClass => Refusal::SuperOutsideClass(span),
        Reason::SuperWithoutSuperclass => Refusal::SuperWithoutSuperclass(span),
        Reason::ThisOutsideClass => Refusal::ThisOutsideClass(span),
        Reason::CodeFull => Refusal::CodeFull,
    }
}

// The name of a level's function, as the table has it; there is none where there is no such level.
fn name_of(t: &[u64], level: usize) -> u64
    requires { length t.now ≡ table_words }
    ensures { result ≡ word t.now level name_place }
{
    if level < Table::LEVELS {
        return t[level * Table::LEVEL_WORDS + Table::NAME];
    }
    0
}

// The same with the function it is in, whose name the table has.
pub fn stopped_of(t: &[u64], why: Why) -> Stopped
    requires { length t.now ≡ table_words }
    ensures { result ≡ told t.now why }
{
    Stopped {
        function: name_of(t, why.around),
        around: why.around as u64,
        what: refusal_of(why),
    }
}

// How long an image is whose records end at `n`, with a directory or without: its mark and count are six bytes, and each function has four.
fn whole_bytes(n: usize, functions: usize, directory: bool) -> usize
    requires { n + 6 + 4 * functions ≤ 1152921504606846976 }
    ensures { result ≡ (if directory then n + 6 + 4 * functions else n) }
{
    if directory {
        return n + 6 + 4 * functions;
    }
    n
}

// An image whose records end at `n`: in the output its header is missing, and its directory where that is asked for. 31 comes after all else.
pub fn finish_image(
    out: &mut [u8],
    n: usize,
    functions: u64,
    options: u32,
) -> Result<usize, Stopped>
    requires { (6 ≤ n) × (n + 6 + 4 * functions ≤ 1152921504606846976) }
    ensures { Finished options functions n out.old out.new result }
{
    let directory = asks_directory(options);
    let whole = whole_bytes(n, functions as usize, directory);
    if out.len() < whole {
        return Err(outside(Refusal::OutFull(whole)));
    }
    if directory {
        put_directory(out, n, functions);
    }
    put_header(out, functions);
    Ok(whole)
}

// Whatever was made, what the work areas held is gone, and after a refusal what the output held too. What was asked for has no part in that, so the
// contract says it of 0.
pub fn end_call(
    made: Result<usize, Stopped>,
    out: &mut [u8],
    table: &mut [u64],
    code: &mut [u8],
    spans: &mut [u32],
) -> Answer
    ensures { record { answer = result; output = out.new; table = table.new; code = code.new; spans = spans.new } ≡ leaves (lent_of 0 table.old code.old spans.old out.old) (answer_of made) (output_of out.old made) }
{
    areas::clear64(table);
    areas::clear8(code);
    areas::clear32(spans);
    match made {
        Ok(n) => accepted(n),
        Err(x) => {
            areas::clear8(out);
            refused_in(x)
        }
    }
}
