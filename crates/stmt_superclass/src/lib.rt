// The superclass of a class: the scope of `super` is begun, and the class inherits.
#![tactic(auto)]

ghost use Rattle.std.proofs.Math.Option.{some};
ghost use Rattle.std.specs.Prelude.{◌+◌, ◌*◌, ◌≤◌, ◌<◌, length, get_or};
ghost use Rattle.rules.specs.Compiler.{compile_superclass};
ghost use Rattle.state.specs.Layout.{deepest, depth_place, level_words};
ghost use Rattle.steps.specs.View.{areas, SameAreas, Fit, deeper, Did};
ghost use Rattle.stmt_heads.specs.Classes.{ClassHead, superclass_of, SuperOpened};

use fields::{span_at, u8_at, u16_at};
use op::Op;
use rules::{Name, Span};
use step_bytes::emit_op;
use step_names::get_variable;
use step_scopes::{begin_scope, declare_local, define_local};
use steps::{Class, Reason, Step, Why, Work};

// A class that inherits: the innermost one where its superclass is looked up.
const HEIR: u8 = Class::WITH_SUPER;

// The scope of `super` is begun, and the class inherits. The superclass's own record follows the class's fields.
fn inherit(
    tree: &[u8],
    at: usize,
    work: &mut Work<'_>,
    level: usize,
    limit: usize,
    name: u16,
    span: Span,
) -> Step
    requires { (at + 27 ≤ length tree.now) × (Fit (areas work.old) level limit) × (get_or work.old.table.now (level * level_words + depth_place) 0 < deepest) }
    ensures does { Did 2 limit level (at + 27) deeper (compile_superclass limit name (some (superclass_of tree.now at)) span) (areas work.old) (areas work.new) result }
    ensures same { SameAreas work.old work.new }
{
    let parent = u16_at(tree, at + 25);
    let place = span_at(tree, at + 17);
    if parent == name {
        return Err(Why {
            reason: Reason::ClassInheritFromSelf,
            span,
            name,
            around: level,
        });
    }
    begin_scope(work.table, level);
    let d = declare_local(work.table, level, Name::SUPER, Span { start: 0, end: 0 }, 0);
    let Ok(_) = d else {
        return d;
    };
    define_local(work.table, level);
    let a = get_variable(work, level, limit, HEIR, parent, place, 0);
    let Ok(_) = a else {
        return a;
    };
    let b = get_variable(work, level, limit, HEIR, name, span, 0);
    let Ok(_) = b else {
        return b;
    };
    emit_op(work, level, limit, Op::INHERIT, span, at + 27)
}

// The superclass where there is one. The answer's value is where the first method stands.
pub fn superclass(
    tree: &[u8],
    at: usize,
    work: &mut Work<'_>,
    level: usize,
    limit: usize,
    name: u16,
    span: Span,
) -> Step
    requires { (ClassHead tree.now at) × (Fit (areas work.old) level limit) × (get_or work.old.table.now (level * level_words + depth_place) 0 < deepest) }
    ensures does { SuperOpened limit level name tree.now at span (areas work.old) (areas work.new) result }
    ensures same { SameAreas work.old work.new }
{
    if u8_at(tree, at + 12) == 1 {
        return inherit(tree, at, work, level, limit, name, span);
    }
    Ok(at + 15)
}
