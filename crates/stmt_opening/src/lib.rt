// A function is begun: its context, the local of its slot zero and its parameters. `level` is the function around; the one that is begun is at the
// level above.
#![tactic(auto)]

ghost use Rattle.std.specs.Prelude.{◌≡◌, ◌+◌, ◌*◌, ◌<◌, get_or};
ghost use Rattle.rules.specs.Compiler.{slot_zero};
ghost use Rattle.state.specs.Kinds.{number_of};
ghost use Rattle.state.specs.Layout.{levels, deepest, type_of, Wf, depth_place, level_words};
ghost use Rattle.stmt_opening.specs.Opening.{NamesThere, FunHead, declare_named, Named, ParamsDeclared, FunctionOpened};

use fields::u16_at;
use rules::{Limit, Name, Span};
use state::{Kind, Undeclared};
use steps::{Reason, Step, Why};

// The name of slot zero: `this` in a method, a function's own name in it.
fn slot_zero(name: u16, kind: Kind) -> u16
    ensures { result ≡ slot_zero (type_of (number_of kind)) name }
{
    match kind {
        Kind::Initializer | Kind::Method => Name::THIS,
        Kind::Script | Kind::Function => name,
    }
}

// A local is declared, and has its value at once.
fn declare_named(t: &mut [u64], level: usize, name: u16, span: Span, next: usize) -> Step
    requires { (level < levels) × (Wf t.old) }
    ensures { Named level next (declare_named name span) t.old t.new result }
{
    let r = state_names::declare_local(t, level, name);
    match r {
        Ok(()) => {}
        Err(Undeclared::Already) => return Err(Why {
            reason: Reason::AlreadyDefined,
            span,
            name,
            around: level,
        }),
        Err(Undeclared::Full) => return Err(Why {
            reason: Reason::TooManyLocals,
            span,
            name: 0,
            around: level,
        }),
    }
    state_names::define_local(t, level);
    Ok(next)
}

// The names from `at` on, as many as `count`. The answer's value is where they end.
fn declare_params(
    tree: &[u8],
    at: usize,
    count: usize,
    t: &mut [u64],
    level: usize,
    span: Span,
) -> Step
    requires { (NamesThere tree.now count at) × (level < levels) × (Wf t.old) }
    ensures { ParamsDeclared level tree.now count at span t.old t.new result }
{
    let mut next = at;
    for _ in 0..count {
        let name = u16_at(tree, next);
        let a = declare_named(t, level, name, span, 0);
        let Ok(_) = a else {
            return a;
        };
        next += 2;
    }
    Ok(next)
}

// The function whose record starts at `at`, up to its statements. The answer's value is where they are counted.
pub fn open_function(
    tree: &[u8],
    at: usize,
    t: &mut [u64],
    level: usize,
    kind: u8,
    span: Span,
) -> Step
    requires { (FunHead tree.now at) × (level + 1 < levels) × (Wf t.old) × (get_or t.old (level * level_words + depth_place) 0 < deepest) }
    ensures { FunctionOpened level kind tree.now at span t.old t.new result }
{
    let name = u16_at(tree, at + 10);
    let count = u16_at(tree, at + 12);
    if Limit::PARAMS < count {
        return Err(Why {
            reason: Reason::TooManyParams,
            span,
            name: 0,
            around: level,
        });
    }
    let what = Kind::from(kind);
    state_levels::begin_ctx(t, level, name, (count % 256) as u8, what);
    let a = declare_named(t, level + 1, slot_zero(name, what), span, 0);
    let Ok(_) = a else {
        return a;
    };
    declare_params(tree, at + 14, count as usize, t, level + 1, span)
}
