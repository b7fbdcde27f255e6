// Names: where one is found, read, set and defined; each against the rules' step of its name.
#![tactic(auto)]

ghost use Rattle.std.specs.Prelude.{◌≡◌, ℕ, ◌<◌, ◌&&◌, eqb};
ghost use Rattle.rules.specs.Compiler.{get_variable, set_variable, define_name};
ghost use Rattle.rules.specs.Tree.{this_name};
ghost use Rattle.state.specs.Layout.{levels, Wf};
ghost use Rattle.step_names.specs.Access.{op_of, access_name};
ghost use Rattle.steps.specs.View.{areas, SameAreas, Fit, steady, Did, Placed};

use op::Op;
use rules::{Name, Span};
use state::Uncaptured;
use step_bytes::{emit_op_name, emit_op_u8};
use step_scopes::{declare_local, define_local, is_global_in};
use steps::{Class, Place, Reason, Step, Why, Work};

pub fn resolve(t: &mut [u64], level: usize, name: u16, span: Span) -> Result<Place, Why>
    requires { (level < levels) × (Wf t.old) }
    ensures { Placed level name span t.old t.new result }
{
    let slot = state_names::resolve_local(t, level, name, false);
    match slot {
        Ok(Some(i)) => return Ok(Place::Local(i)),
        Err(_) => return Err(Why {
            reason: Reason::AccessInsideInitializer,
            span,
            name,
            around: level,
        }),
        Ok(None) => {}
    }
    let up = state_names::resolve_upvalue(t, level, name);
    match up {
        Ok(Some(i)) => Ok(Place::Upvalue(i)),
        Ok(None) => Ok(Place::Global),
        Err(Uncaptured::Unready) => Err(Why {
            reason: Reason::AccessInsideInitializer,
            span,
            name,
            around: level,
        }),
        Err(Uncaptured::Full) => Err(Why {
            reason: Reason::TooManyUpvalues,
            span,
            name: 0,
            around: level,
        }),
    }
}

// `this` where no class is around.
pub fn lost_this(name: u16, class: u8) -> bool
    ensures { result ≡ (eqb name this_name && eqb class 0) }
{
    if name != Name::THIS {
        return false;
    }
    class == Class::NONE
}

// What is done with a variable.
#[derive(Clone, Copy)]
enum Access {
    Get,
    Set,
}

impl Access {
    // The instruction that does it, by where the variable is found.
    fn op(self, place: Place) -> u8
        ensures { result ≡ op_of self place }
    {
        match (self, place) {
            (Access::Get, Place::Local(_)) => Op::GET_LOCAL,
            (Access::Get, Place::Upvalue(_)) => Op::GET_UPVALUE,
            (Access::Get, Place::Global) => Op::GET_GLOBAL,
            (Access::Set, Place::Local(_)) => Op::SET_LOCAL,
            (Access::Set, Place::Upvalue(_)) => Op::SET_UPVALUE,
            (Access::Set, Place::Global) => Op::SET_GLOBAL,
        }
    }
}

// The variable of a name is found, and read or set.
fn access_variable(
    work: &mut Work<'_>,
    level: usize,
    limit: usize,
    access: Access,
    name: u16,
    span: Span,
    next: usize,
) -> Step
    requires { Fit (areas work.old) level limit }
    ensures does { (class : ℕ) → Did class limit level next steady (access_name access limit name span) (areas work.old) (areas work.new) result }
    ensures same { SameAreas work.old work.new }
{
    let found = resolve(work.table, level, name, span);
    let place = match found {
        Ok(place) => place,
        Err(why) => return Err(why),
    };
    let op = access.op(place);
    match place {
        Place::Local(slot) => emit_op_u8(work, level, limit, op, slot, span, next),
        Place::Upvalue(slot) => emit_op_u8(work, level, limit, op, slot, span, next),
        Place::Global => emit_op_name(work, level, limit, op, name, span, next),
    }
}

pub fn get_variable(
    work: &mut Work<'_>,
    level: usize,
    limit: usize,
    class: u8,
    name: u16,
    span: Span,
    next: usize,
) -> Step
    requires { Fit (areas work.old) level limit }
    ensures does { Did class limit level next steady (get_variable limit name span) (areas work.old) (areas work.new) result }
    ensures same { SameAreas work.old work.new }
{
    if lost_this(name, class) {
        return Err(Why {
            reason: Reason::ThisOutsideClass,
            span,
            name: 0,
            around: level,
        });
    }
    let a = access_variable(work, level, limit, Access::Get, name, span, next);
    let Ok(_) = a else {
        return a;
    };
    Ok(next)
}

pub fn set_variable(
    work: &mut Work<'_>,
    level: usize,
    limit: usize,
    name: u16,
    span: Span,
    next: usize,
) -> Step
    requires { Fit (areas work.old) level limit }
    ensures does { (class : ℕ) → Did class limit level next steady (set_variable limit name span) (areas work.old) (areas work.new) result }
    ensures same { SameAreas work.old work.new }
{
    let a = access_variable(work, level, limit, Access::Set, name, span, next);
    let Ok(_) = a else {
        return a;
    };
    Ok(next)
}

// A global is defined, or a local declared and defined.
pub fn define_name(
    work: &mut Work<'_>,
    level: usize,
    limit: usize,
    name: u16,
    span: Span,
    next: usize,
) -> Step
    requires { Fit (areas work.old) level limit }
    ensures does { (class : ℕ) → Did class limit level next steady (define_name limit name span) (areas work.old) (areas work.new) result }
    ensures same { SameAreas work.old work.new }
{
    if is_global_in(&*work, level) {
        return emit_op_name(work, level, limit, Op::DEFINE_GLOBAL, name, span, next);
    }
    let a = declare_local(work.table, level, name, span, next);
    let Ok(_) = a else {
        return a;
    };
    define_local(work.table, level);
    Ok(next)
}
