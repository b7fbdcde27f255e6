// The span of one code byte, from a list of runs: 0 with the span of the run that holds the byte, or 42.
#![tactic(auto)]

ghost use Rattle.std.specs.Prelude.{◌≡◌};
ghost use Rattle.rules.specs.Checker.{span_of};
ghost use Rattle.rules.specs.Checker as Checker;
ghost use Rattle.spans.specs.Words.{runs_of};
ghost use Rattle.spans.specs.Runs.{runs_in};

use answers::refused;
use rules::{Answer, Refusal};

// The runs as words: start, end and count of each in turn. It stops at the run that holds the byte.
pub fn span_of_words(words: &[u32], offset: usize) -> Answer
    ensures { result ≡ span_of (runs_of words.now) offset }
{
    let mut runs = words;
    let mut left = offset;
    while let [start, end, count, rest @ ..] = runs {
        let count = *count as usize;
        if left < count {
            return Answer {
                number: 0,
                at: *start as u64,
                end: *end as u64,
                name: 0,
                length: 0,
                function: 0,
                around: 0,
            };
        }
        left -= count;
        runs = rest;
    }
    refused(Refusal::NoSuchByte)
}

// Neighbouring code bytes of one span.
#[repr(C)]
#[derive(Clone, Copy)]
pub struct Run {
    pub start: u32,
    pub end: u32,
    pub count: u8,
}

// The same over a lent slice of runs.
pub fn span_of(runs: &[Run], offset: usize) -> Answer
    ensures { result ≡ Checker.span_of (runs_in runs.now) offset }
{
    let mut left = offset;
    for run in runs {
        let count = run.count as usize;
        if left < count {
            return Answer {
                number: 0,
                at: run.start as u64,
                end: run.end as u64,
                name: 0,
                length: 0,
                function: 0,
                around: 0,
            };
        }
        left -= count;
    }
    refused(Refusal::NoSuchByte)
}
