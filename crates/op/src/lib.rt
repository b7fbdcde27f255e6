// The opcodes (src/vm/op.rs): their numbers, in its order, and how many bytes an instruction has.
#![tactic(auto)]

ghost use Rattle.std.specs.Prelude.{◌≡◌, eqb, if◌then◌else◌};
ghost use Rattle.rules.specs.Op as rules;

// How many opcodes there are.
const OPCODES: usize = 40;

// The mark of CLOSURE, whose width needs its function; no instruction's width.
const NEEDS_FUNCTION: usize = 255;

// An opcode, and how many bytes its instruction has.
#[derive(Clone, Copy)]
struct Row(u8, usize);

// How many bytes an instruction has, its opcode among them: a row for each opcode, in the order of op.rs.
const WIDTHS: [Row; OPCODES] = [
    Row(Op::CONSTANT, 2),
    Row(Op::NIL, 1),
    Row(Op::TRUE, 1),
    Row(Op::FALSE, 1),
    Row(Op::POP, 1),
    Row(Op::GET_LOCAL, 2),
    Row(Op::SET_LOCAL, 2),
    Row(Op::GET_GLOBAL, 2),
    Row(Op::DEFINE_GLOBAL, 2),
    Row(Op::SET_GLOBAL, 2),
    Row(Op::GET_UPVALUE, 2),
    Row(Op::SET_UPVALUE, 2),
    Row(Op::GET_PROPERTY, 2),
    Row(Op::SET_PROPERTY, 2),
    Row(Op::GET_SUPER, 2),
    Row(Op::EQUAL, 1),
    Row(Op::NOT_EQUAL, 1),
    Row(Op::GREATER, 1),
    Row(Op::GREATER_EQUAL, 1),
    Row(Op::LESS, 1),
    Row(Op::LESS_EQUAL, 1),
    Row(Op::ADD, 1),
    Row(Op::SUBTRACT, 1),
    Row(Op::MULTIPLY, 1),
    Row(Op::DIVIDE, 1),
    Row(Op::NOT, 1),
    Row(Op::NEGATE, 1),
    Row(Op::PRINT, 1),
    Row(Op::JUMP, 3),
    Row(Op::JUMP_IF_FALSE, 3),
    Row(Op::LOOP, 3),
    Row(Op::CALL, 2),
    Row(Op::INVOKE, 3),
    Row(Op::SUPER_INVOKE, 3),
    Row(Op::CLOSURE, NEEDS_FUNCTION),
    Row(Op::CLOSE_UPVALUE, 1),
    Row(Op::RETURN, 1),
    Row(Op::CLASS, 2),
    Row(Op::INHERIT, 1),
    Row(Op::METHOD, 2),
];

// The bytes of the row whose opcode it is, 0 where there is none. All rows are gone through: of that the compiler makes one choice, where a loop
// that leaves at the row, or an index, has the table put on the stack in every call (docs/changes/M-102.md).
fn entry(op: u8) -> usize
    ensures { result ≡ (if eqb op rules.CLOSURE then 255 else rules.width op 0) }
{
    let rows = WIDTHS;
    let mut bytes: usize = 0;
    for row in rows {
        if row.0 == op {
            bytes = row.1;
        }
    }
    bytes
}

#[derive(Clone, Copy)]
pub struct Op {
    pub byte: u8,
}

impl Op {
    pub const CONSTANT: u8 = 0;

    pub const NIL: u8 = 1;

    pub const TRUE: u8 = 2;

    pub const FALSE: u8 = 3;

    pub const POP: u8 = 4;

    pub const GET_LOCAL: u8 = 5;

    pub const SET_LOCAL: u8 = 6;

    pub const GET_GLOBAL: u8 = 7;

    pub const DEFINE_GLOBAL: u8 = 8;

    pub const SET_GLOBAL: u8 = 9;

    pub const GET_UPVALUE: u8 = 10;

    pub const SET_UPVALUE: u8 = 11;

    pub const GET_PROPERTY: u8 = 12;

    pub const SET_PROPERTY: u8 = 13;

    pub const GET_SUPER: u8 = 14;

    pub const EQUAL: u8 = 15;

    pub const NOT_EQUAL: u8 = 16;

    pub const GREATER: u8 = 17;

    pub const GREATER_EQUAL: u8 = 18;

    pub const LESS: u8 = 19;

    pub const LESS_EQUAL: u8 = 20;

    pub const ADD: u8 = 21;

    pub const SUBTRACT: u8 = 22;

    pub const MULTIPLY: u8 = 23;

    pub const DIVIDE: u8 = 24;

    pub const NOT: u8 = 25;

    pub const NEGATE: u8 = 26;

    pub const PRINT: u8 = 27;

    pub const JUMP: u8 = 28;

    pub const JUMP_IF_FALSE: u8 = 29;

    pub const LOOP: u8 = 30;

    pub const CALL: u8 = 31;

    pub const INVOKE: u8 = 32;

    pub const SUPER_INVOKE: u8 = 33;

    pub const CLOSURE: u8 = 34;

    pub const CLOSE_UPVALUE: u8 = 35;

    pub const RETURN: u8 = 36;

    pub const CLASS: u8 = 37;

    pub const INHERIT: u8 = 38;

    pub const METHOD: u8 = 39;

    // How many bytes an instruction has, its opcode among them; 0 of a byte that is no opcode. `upvalues` is how many variables a
    // CLOSURE's function captures; no other instruction needs it.
    pub fn width(op: u8, upvalues: u32) -> usize
        ensures { result ≡ rules.width op upvalues }
    {
        let bytes = entry(op);
        if bytes == NEEDS_FUNCTION {
            return 2 + 2 * (upvalues as usize);
        }
        bytes
    }
}
