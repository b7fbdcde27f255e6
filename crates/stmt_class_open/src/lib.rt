// A class up to its methods: its name, its superclass, and the class itself on the stack where there are methods.
#![tactic(auto)]

ghost use Rattle.std.specs.Prelude.{ℕ, ◌+◌, ◌*◌, ◌<◌, get_or};
ghost use Rattle.state.specs.Layout.{deepest, depth_place, level_words};
ghost use Rattle.steps.specs.View.{areas, SameAreas, Fit};
ghost use Rattle.stmt_heads.specs.Classes.{ClassHead, ClassOpened};

use fields::u16_at;
use op::Op;
use rules::Span;
use step_bytes::emit_op_name;
use step_names::{define_name, get_variable};
use steps::{Step, Work};
use stmt_heads::inner_class;
use stmt_superclass::superclass;

// A class up to its methods. Where it has some, it is on the stack while they are made.
pub fn open_class(
    tree: &[u8],
    at: usize,
    work: &mut Work<'_>,
    level: usize,
    limit: usize,
    span: Span,
) -> Step
    requires { (ClassHead tree.now at) × (Fit (areas work.old) level limit) × (get_or work.old.table.now (level * level_words + depth_place) 0 < deepest) }
    ensures does { (class : ℕ) → ClassOpened class limit level tree.now at span (areas work.old) (areas work.new) result }
    ensures same { SameAreas work.old work.new }
{
    let name = u16_at(tree, at + 10);
    let a = emit_op_name(work, level, limit, Op::CLASS, name, span, 0);
    let Ok(_) = a else {
        return a;
    };
    let b = define_name(work, level, limit, name, span, 0);
    let Ok(_) = b else {
        return b;
    };
    let d = superclass(tree, at, work, level, limit, name, span);
    let Ok(first) = d else {
        return d;
    };
    if u16_at(tree, at + 13) == 0 {
        return Ok(first);
    }
    let class = inner_class(tree, at);
    get_variable(work, level, limit, class, name, span, first)
}
