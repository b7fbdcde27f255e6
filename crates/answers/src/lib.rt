// An answer's numbers from what was found: a length where all is well, or a refusal by its name and the function it is in.
#![tactic(auto)]

ghost use Rattle.std.specs.Prelude.{◌≡◌};
ghost use Rattle.rules.specs.Answer.{at_offset, at_span, with_length, refusal, outside, refusal_in};

use rules::{Answer, Refusal, Span, Stopped};

fn at_offset(number: u64, at: usize) -> Answer
    ensures { result ≡ at_offset number at }
{
    Answer {
        number,
        at: at as u64,
        end: 0,
        name: 0,
        length: 0,
        function: 0,
        around: 0,
    }
}

fn at_span(number: u64, span: Span, name: u16) -> Answer
    ensures { result ≡ at_span number span name }
{
    Answer {
        number,
        at: span.start as u64,
        end: span.end as u64,
        name: name as u64,
        length: 0,
        function: 0,
        around: 0,
    }
}

fn with_length(number: u64, length: usize) -> Answer
    ensures { result ≡ with_length number length }
{
    Answer {
        number,
        at: 0,
        end: 0,
        name: 0,
        length: length as u64,
        function: 0,
        around: 0,
    }
}

pub fn accepted(length: usize) -> Answer
    ensures { result ≡ with_length 0 length }
{
    with_length(0, length)
}

// A refusal's number and fields.
pub fn refused(r: Refusal) -> Answer
    ensures { result ≡ refusal r }
{
    match r {
        Refusal::WorkShort => at_offset(1, 0),
        Refusal::TreeTooLong => at_offset(2, 0),
        Refusal::TreeForm(at) => at_offset(3, at),
        Refusal::TreeTooDeep(at) => at_offset(4, at),
        Refusal::TooManyOpen(at) => at_offset(5, at),
        Refusal::AlreadyDefined(span, name) => at_span(10, span, name),
        Refusal::AccessInsideInitializer(span, name) => at_span(11, span, name),
        Refusal::ClassInheritFromSelf(span, name) => at_span(12, span, name),
        Refusal::JumpTooLarge(span) => at_span(13, span, 0),
        Refusal::TooManyArgs(span) => at_span(14, span, 0),
        Refusal::TooManyConstants(span) => at_span(15, span, 0),
        Refusal::TooManyLocals(span) => at_span(16, span, 0),
        Refusal::TooManyParams(span) => at_span(17, span, 0),
        Refusal::TooManyUpvalues(span) => at_span(18, span, 0),
        Refusal::ReturnInInitializer(span) => at_span(19, span, 0),
        Refusal::ReturnOutsideFunction(span) => at_span(20, span, 0),
        Refusal::SuperOutsideClass(span) => at_span(21, span, 0),
        Refusal::SuperWithoutSuperclass(span) => at_span(22, span, 0),
        Refusal::ThisOutsideClass(span) => at_span(23, span, 0),
        Refusal::CodeFull => at_offset(30, 0),
        Refusal::OutFull(needed) => with_length(31, needed),
        Refusal::ImageRefused => at_offset(40, 0),
        Refusal::NoSuchFunction => at_offset(41, 0),
        Refusal::NoSuchByte => at_offset(42, 0),
    }
}

// A refusal that is in no function.
pub fn outside(r: Refusal) -> Stopped
    ensures { result ≡ outside r }
{
    Stopped {
        what: r,
        function: 0,
        around: 0,
    }
}

// A refusal's number and fields, and the function it is in.
pub fn refused_in(x: Stopped) -> Answer
    ensures { result ≡ refusal_in x }
{
    let what = x.what;
    let a = refused(what);
    Answer {
        number: a.number,
        at: a.at,
        end: a.end,
        name: a.name,
        length: a.length,
        function: x.function,
        around: x.around,
    }
}
