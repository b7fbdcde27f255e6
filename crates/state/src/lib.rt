// Where the compiler's state lies in the table that the caller lends, and why its functions refuse: they are in state_scan, state_names, state_code and
// state_levels. specs/Layout.antt says how the state lies there, specs/Contracts.antt what each function does in the rules' terms.
#![tactic(auto)]

ghost use Rattle.std.specs.Prelude.{◌≡◌};
ghost use Rattle.state.specs.Kinds.{number_of};

use rules::Limit;

// Where things lie in the table: the one place that has these numbers for the code. specs/Layout.antt has them for the contracts.
#[derive(Drop)]
pub struct Table {
    pub words: usize,
}

impl Table {
    // The script, and the functions that may be open in one another.
    pub const LEVELS: usize = Limit::FUNS + 1;

    // Of a level, whose locals start at 0.
    pub const LEVEL_WORDS: usize = 1024;

    pub const LOCAL_COUNT: usize = 256;

    pub const UPVALUES: usize = 257;

    pub const UPVALUE_COUNT: usize = 513;

    pub const CONSTANTS: usize = 514;

    pub const CONSTANT_COUNT: usize = 770;

    pub const DEPTH: usize = 771;

    pub const CODE_FROM: usize = 772;

    pub const RUNS_FROM: usize = 773;

    pub const NAME: usize = 774;

    pub const ARITY: usize = 775;

    pub const TYPE: usize = 776;

    // After the levels; the last two are the image writer's: functions finished, and the image's bytes behind its header.
    pub const CODE_END: usize = Table::LEVELS * Table::LEVEL_WORDS;

    pub const RUNS_END: usize = Table::CODE_END + 1;

    pub const FUNCTIONS: usize = Table::CODE_END + 2;

    pub const IMAGE_BYTES: usize = Table::CODE_END + 3;

    // All of it.
    pub const WORDS: usize = Table::CODE_END + 4;
}

// What a function is; the table has its number, of which `type_of` in specs/Layout.antt says what it means.
#[derive(Clone, Copy, PartialEq, Eq, Drop)]
pub enum Kind {
    Script,
    Function,
    Method,
    Initializer,
}

impl Kind {
    // As a word of the table.
    pub fn number(self) -> u64
        ensures { result ≡ number_of self }
    {
        self as u64
    }
}

// Of any byte, as `type_of` says of a word of the table: 3 and all above are an initializer's.
impl From<u8> for Kind {
    ghost use Rattle.std.specs.Prelude.{◌≡◌};
    ghost use Rattle.state.specs.Kinds.{number_of};
    ghost use Rattle.state.specs.Layout.{type_of};

    ghost from_gives = { λ byte kind. type_of (number_of kind) ≡ type_of byte };

    fn from(byte: u8) -> Kind {
        match byte {
            0 => Kind::Script,
            1 => Kind::Function,
            2 => Kind::Method,
            _ => Kind::Initializer,
        }
    }
}

// As such a byte.
impl From<Kind> for u8 {
    ghost use Rattle.std.specs.Prelude.{◌≡◌};
    ghost use Rattle.state.specs.Kinds.{number_of};

    ghost from_gives = { λ kind byte. byte ≡ number_of kind };

    fn from(kind: Kind) -> u8 {
        kind as u8
    }
}

// A local of this name is there, and has no value yet.
#[derive(Drop)]
pub struct Unready;

// There is no room for one more: of code bytes, of constants.
#[derive(Drop)]
pub struct Full;

// Why a name of a function around is not captured: the local has no value yet, or there are as many upvalues as there may be.
#[derive(Drop)]
pub enum Uncaptured {
    Unready,
    Full,
}

// Why a local is not declared: its scope has one of this name, or there are as many locals as there may be.
#[derive(Drop)]
pub enum Undeclared {
    Already,
    Full,
}
