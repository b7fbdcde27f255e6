// A step's answer, the areas that it works on, and where a name is found. specs/View.antt says what it is for a function over the lent areas to come to a step of the rules: the
// functions are in step_bytes, step_jumps, step_scopes, step_names and step_returns. In all of them `level` is the innermost open function and `limit`
// the code limit; a step's answer is where to read on, which is what its last parameter says, or the rules' refusal. Where time counts an answer is taken
// apart and made anew: one that is only handed on is copied through memory, and the copy waits for the stores.
#![tactic(auto)]

use rules::Span;

// The innermost class around a function, as the code has it.
#[derive(Drop)]
pub struct Class {
    pub number: u8,
}

impl Class {
    pub const NONE: u8 = 0;

    pub const ALONE: u8 = 1;

    pub const WITH_SUPER: u8 = 2;
}

// Which refusal stops the compiler, under its name in the rules.
#[derive(Clone, Copy)]
pub enum Reason {
    AlreadyDefined,
    AccessInsideInitializer,
    ClassInheritFromSelf,
    JumpTooLarge,
    TooManyArgs,
    TooManyConstants,
    TooManyLocals,
    TooManyParams,
    TooManyUpvalues,
    ReturnInInitializer,
    ReturnOutsideFunction,
    SuperOutsideClass,
    SuperWithoutSuperclass,
    ThisOutsideClass,
    CodeFull,
}

// Of any byte, by the refusals' numbers: a byte that is none of the others' is CODE_FULL's.
impl From<u8> for Reason {
    ghost use Rattle.std.specs.Prelude.{◌≡◌};
    ghost use Rattle.steps.specs.Numbers.{reason_of};

    ghost from_gives = { λ number reason. reason ≡ reason_of number };

    fn from(number: u8) -> Reason {
        match number {
            10 => Reason::AlreadyDefined,
            11 => Reason::AccessInsideInitializer,
            12 => Reason::ClassInheritFromSelf,
            13 => Reason::JumpTooLarge,
            14 => Reason::TooManyArgs,
            15 => Reason::TooManyConstants,
            16 => Reason::TooManyLocals,
            17 => Reason::TooManyParams,
            18 => Reason::TooManyUpvalues,
            19 => Reason::ReturnInInitializer,
            20 => Reason::ReturnOutsideFunction,
            21 => Reason::SuperOutsideClass,
            22 => Reason::SuperWithoutSuperclass,
            23 => Reason::ThisOutsideClass,
            _ => Reason::CodeFull,
        }
    }
}

// Why the compiler stops: the refusal's name, what it carries, and the level of the function it is in; specs/Why.antt says which refusal that is. All have
// this one form: a case with fields for each would stand in every line that is proved of a function with such an answer. The function's name is in the
// table, which nobody changes once the compiler stops: it is read in the end.
#[derive(Drop)]
pub struct Why {
    pub reason: Reason,
    pub span: Span,
    pub name: u16,
    pub around: usize,
}

// Where to read on, or why the compiler stops.
pub type Step = Result<usize, Why>;

// The areas that a caller lends, as the compiler hands them on: the table of its state, the open functions' code, and their runs.
#[derive(Drop)]
pub struct Work<'a> {
    pub table: &'a mut [u64],
    pub code: &'a mut [u8],
    pub spans: &'a mut [u32],
}

// Where a name is found.
#[derive(Clone, Copy)]
pub enum Place {
    Local(u8),
    Upvalue(u8),
    Global,
}
