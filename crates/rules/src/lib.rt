// What comes back, as types: a refusal by its name, the function it is in, and the answer's numbers; and the numbers that mean something in all crates, by name. specs/ computes with these same types, so that code and
// rules cannot mean two things by one name; specs/Answer.antt gives each refusal its number and fields.
#![tactic(auto)]

// The limits, for the code. specs/ has them where they belong: Limits.antt, and the steps that refuse what passes one.
#[derive(Drop)]
pub struct Limit {
    pub most: usize,
}

impl Limit {
    // Records inside one another, and functions inside one another.
    pub const DEPTH: usize = 128;

    pub const FUNS: usize = 16;

    // Of a tree file.
    pub const TREE_BYTES: usize = 1048576;

    pub const NAMES: u16 = 4096;

    // Of the open functions' code.
    pub const CODE_BYTES: usize = 262144;

    // Of one function, and of a call.
    pub const LOCALS: usize = 256;

    pub const UPVALUES: usize = 256;

    pub const CONSTANTS: usize = 256;

    pub const PARAMS: u16 = 255;

    pub const ARGS: u16 = 255;

    // Of a jump's operand, and of a run's count.
    pub const JUMP: usize = 65535;

    pub const RUN: u32 = 255;
}

// The names that are never written: specs/Tree.antt has them under these names.
#[derive(Drop)]
pub struct Name {
    pub number: u16,
}

impl Name {
    pub const THIS: u16 = 0;

    pub const SUPER: u16 = 1;

    pub const INIT: u16 = 2;

    pub const SCRIPT: u16 = 3;
}

// Where a statement or expression stands in the text: any two numbers.
#[derive(Clone, Copy)]
pub struct Span {
    pub start: u32,
    pub end: u32,
}

#[derive(Drop)]
pub enum Refusal {
    WorkShort,
    TreeTooLong,
    TreeForm(usize),
    TreeTooDeep(usize),
    TooManyOpen(usize),
    AlreadyDefined(Span, u16),
    AccessInsideInitializer(Span, u16),
    ClassInheritFromSelf(Span, u16),
    JumpTooLarge(Span),
    TooManyArgs(Span),
    TooManyConstants(Span),
    TooManyLocals(Span),
    TooManyParams(Span),
    TooManyUpvalues(Span),
    ReturnInInitializer(Span),
    ReturnOutsideFunction(Span),
    SuperOutsideClass(Span),
    SuperWithoutSuperclass(Span),
    ThisOutsideClass(Span),
    CodeFull,
    OutFull(usize),
    ImageRefused,
    NoSuchFunction,
    NoSuchByte,
}

// A refusal, and the function it is in: its name, and how many functions are open around it. A refusal that comes before the compiler starts or after it
// has ended is in none, and has 0 and 0.
#[derive(Drop)]
pub struct Stopped {
    pub what: Refusal,
    pub function: u64,
    pub around: u64,
}

#[repr(C)]
#[derive(Clone, Copy)]
pub struct Answer {
    pub number: u64,
    pub at: u64,
    pub end: u64,
    pub name: u64,
    pub length: u64,
    pub function: u64,
    pub around: u64,
}
