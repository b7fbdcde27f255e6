// Levels: the scope's depth, a level opened and left, all of them cleared before the script.
#![tactic(auto)]

ghost use Rattle.std.specs.Prelude.{◌≡◌, ◌+◌, ◌*◌, ◌≤◌, ◌<◌, length, get_or};
ghost use Rattle.state.specs.Kinds.{number_of};
ghost use Rattle.state.specs.Layout.{levels, deepest, table_words, Wf, depth_place, level_words};
ghost use Rattle.state.specs.Meaning.{Moved, Closed, Began, Emptied, Blank};

use state::{Kind, Table};

// The scope depth becomes `depth`.
pub fn move_scope(t: &mut [u64], level: usize, depth: u64)
    requires { (level < levels) × (Wf t.old) × (depth ≤ deepest) }
    ensures { Moved t.old t.new level depth }
{
    t[level * Table::LEVEL_WORDS + Table::DEPTH] = depth;
}

// A level has nothing in it.
fn clear_level(t: &mut [u64], level: usize)
    requires { (level < levels) × (length t.old ≡ table_words) }
    ensures { Emptied t.old t.new level }
{
    let base = level * Table::LEVEL_WORDS;
    t[base + Table::LOCAL_COUNT] = 0;
    t[base + Table::UPVALUE_COUNT] = 0;
    t[base + Table::CONSTANT_COUNT] = 0;
    t[base + Table::DEPTH] = 0;
}

// No level has anything in it, whatever the table held: its counts and depths are set, and all else is stored before it is read. So the table has to
// be cleared once a call, and not twice.
pub fn clear_levels(t: &mut [u64])
    requires { length t.old ≡ table_words }
    ensures { Blank t.new }
{
    for level in 0..Table::LEVELS {
        clear_level(t, level);
    }
}

// Opens the context above a level: no locals, no upvalues, no constants, no code, one scope deeper.
pub fn begin_ctx(t: &mut [u64], level: usize, name: u16, arity: u8, kind: Kind)
    requires { (level + 1 < levels) × (Wf t.old) × (get_or t.old (level * level_words + depth_place) 0 < deepest) }
    ensures { Began t.old t.new level name arity (number_of kind) }
{
    let base = (level + 1) * Table::LEVEL_WORDS;
    let depth = t[level * Table::LEVEL_WORDS + Table::DEPTH];
    let code = t[Table::CODE_END];
    let runs = t[Table::RUNS_END];
    t[base + Table::LOCAL_COUNT] = 0;
    t[base + Table::UPVALUE_COUNT] = 0;
    t[base + Table::CONSTANT_COUNT] = 0;
    t[base + Table::DEPTH] = depth + 1;
    t[base + Table::CODE_FROM] = code;
    t[base + Table::RUNS_FROM] = runs;
    t[base + Table::NAME] = name as u64;
    t[base + Table::ARITY] = arity as u64;
    t[base + Table::TYPE] = kind.number();
}

// Leaves a context: the code and the runs end where its own began.
pub fn end_ctx(t: &mut [u64], level: usize)
    requires { (level < levels) × (Wf t.old) }
    ensures { Closed t.old t.new level }
{
    let code = t[level * Table::LEVEL_WORDS + Table::CODE_FROM];
    let runs = t[level * Table::LEVEL_WORDS + Table::RUNS_FROM];
    t[Table::CODE_END] = code;
    t[Table::RUNS_END] = runs;
}
