// What the code of one function of an image is made of: a constant and what follows an opcode as numbers, and how many bytes an instruction has.
#![tactic(auto)]

ghost use Rattle.std.specs.Prelude.{◌≡◌, ◌+◌, ◌<◌, length, get_or, drop};
ghost use Rattle.image_code.specs.Forms.{form_of};
ghost use Rattle.image_code.specs.Forms as Forms;
ghost use Rattle.image_code.specs.Table.{kind_of, kinds_in};

use op::Op;

// Places of a code that are less than this apart have slots of their own in the ring: a jump's targets are all within such a window. A code that
// is no longer has a slot for each place, so its ring need not be longer than it.
pub const WINDOW: usize = 131072;

// A constant, as operands see it: the rules' `Kind`.
#[derive(Clone, Copy)]
pub enum Kind {
    // there is no such constant
    Missing,
    Number,
    Text,
    // and how many variables it captures
    Function(u16),
}

// What follows an opcode: the rules' `Operands`, by their names.
#[derive(Clone, Copy)]
pub enum Form {
    // nothing
    Plain,
    // a slot or a count
    Byte,
    // a captured variable's place
    Captured,
    // the place of a constant that is no function
    Value,
    // the place of a string
    Text,
    // the place of a string, and a count
    Invoke,
    // a distance ahead
    Ahead,
    // a distance back
    Back,
    // the place of a function, and a pair for each of its captured variables
    Closure,
}

// The form of each opcode, in the order of their numbers.
const FORMS: [Form; 40] = [
    Form::Value, // CONSTANT
    Form::Plain, // NIL
    Form::Plain, // TRUE
    Form::Plain, // FALSE
    Form::Plain, // POP
    Form::Byte, // GET_LOCAL
    Form::Byte, // SET_LOCAL
    Form::Text, // GET_GLOBAL
    Form::Text, // DEFINE_GLOBAL
    Form::Text, // SET_GLOBAL
    Form::Captured, // GET_UPVALUE
    Form::Captured, // SET_UPVALUE
    Form::Text, // GET_PROPERTY
    Form::Text, // SET_PROPERTY
    Form::Text, // GET_SUPER
    Form::Plain, // EQUAL
    Form::Plain, // NOT_EQUAL
    Form::Plain, // GREATER
    Form::Plain, // GREATER_EQUAL
    Form::Plain, // LESS
    Form::Plain, // LESS_EQUAL
    Form::Plain, // ADD
    Form::Plain, // SUBTRACT
    Form::Plain, // MULTIPLY
    Form::Plain, // DIVIDE
    Form::Plain, // NOT
    Form::Plain, // NEGATE
    Form::Plain, // PRINT
    Form::Ahead, // JUMP
    Form::Ahead, // JUMP_IF_FALSE
    Form::Back, // LOOP
    Form::Byte, // CALL
    Form::Invoke, // INVOKE
    Form::Invoke, // SUPER_INVOKE
    Form::Closure, // CLOSURE
    Form::Plain, // CLOSE_UPVALUE
    Form::Plain, // RETURN
    Form::Text, // CLASS
    Form::Plain, // INHERIT
    Form::Text, // METHOD
];

// The form of an opcode; none of a byte that is no opcode.
pub fn form_of(op: u8) -> Option<Form>
    ensures { result ≡ form_of op }
{
    if op <= Op::METHOD {
        return Some(FORMS[op as usize]);
    }
    None
}

// What the first operand of the instruction at `at` finds in the table.
fn kind_at(code: &[u8], at: usize, kinds: &[Kind; 256]) -> Kind
    requires { at < length code.now }
    ensures { kind_of result ≡ kinds_in kinds.now (get_or (drop (at + 1) code.now) 0 0) }
{
    if at + 1 < code.len() {
        return kinds[code[at + 1] as usize];
    }
    kinds[0]
}

// How many bytes the instruction at `at` has; 0 where there is no such instruction: a byte that is no opcode, or a CLOSURE of no function. No
// Option: of its callers one alone asks whether there is one, and the others go on by the number, where they know that there is.
pub fn width_at(code: &[u8], at: usize, kinds: &[Kind; 256]) -> usize
    requires { at < length code.now }
    ensures { result ≡ Forms.width (kinds_in kinds.now) (get_or code.now at 0) (drop (at + 1) code.now) }
{
    let op = code[at];
    if op != Op::CLOSURE {
        return Op::width(op, 0);
    }
    let Kind::Function(captured) = kind_at(code, at, kinds) else {
        return 0;
    };
    Op::width(op, captured as u32)
}
