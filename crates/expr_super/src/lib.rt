// A method of the superclass.
#![tactic(auto)]

ghost use Rattle.rules.specs.Compiler.{compile_super};
ghost use Rattle.steps.specs.View.{areas, SameAreas, Fit, steady, Did};

use op::Op;
use rules::{Name, Span};
use step_bytes::emit_op_name;
use step_names::get_variable;
use step_returns::need_super;
use steps::{Step, Work};

// A method of the superclass, bound to `this`.
pub fn compile_super(
    work: &mut Work<'_>,
    level: usize,
    limit: usize,
    class: u8,
    name: u16,
    span: Span,
    next: usize,
) -> Step
    requires { Fit (areas work.old) level limit }
    ensures does { Did class limit level next steady (compile_super limit name span) (areas work.old) (areas work.new) result }
    ensures same { SameAreas work.old work.new }
{
    let n = need_super(level, class, span, next);
    let Ok(_) = n else {
        return n;
    };
    let a = get_variable(work, level, limit, class, Name::THIS, span, next);
    let Ok(_) = a else {
        return a;
    };
    let b = get_variable(work, level, limit, class, Name::SUPER, span, next);
    let Ok(_) = b else {
        return b;
    };
    emit_op_name(work, level, limit, Op::GET_SUPER, name, span, next)
}
