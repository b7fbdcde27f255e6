// Locals and upvalues of a level: found, captured, declared, defined, dropped.
#![tactic(auto)]

ghost use Rattle.std.specs.Prelude.{◌≡◌, ◌+◌, ◌*◌, ◌-◌, ◌≤◌, ◌<◌, is_some, length, get_or};
ghost use Rattle.rules.specs.Compiler.{declared_here};
ghost use Rattle.state.specs.Layout.{levels, local_of, stack, Wf, level_words, local_count_place};
ghost use Rattle.state.specs.Meaning.{Looked, Added, Captured, DeclaredAt, DefinedAt, Dropped};

use rules::Limit;
use state::{Table, Uncaptured, Undeclared, Unready};
use state_scan::{first, topmost};

// The slot of the topmost local of this name, which is marked as captured if `mark` says so.
pub fn resolve_local(
    t: &mut [u64],
    level: usize,
    name: u16,
    mark: bool,
) -> Result<Option<u8>, Unready>
    requires { (level < levels) × (Wf t.old) }
    ensures { Looked t.old t.new level name mark result }
{
    let base = level * Table::LEVEL_WORDS;
    let n = t[base + Table::LOCAL_COUNT] as usize;
    let Some(place) = topmost(&t[base..base + n], name as u64) else {
        return Ok(None);
    };
    let at = base + place;
    let w = t[at];
    if w / 65536 % 2 == 0 {
        return Err(Unready);
    }
    if mark {
        if w / 65536 / 2 % 2 == 0 {
            t[at] = w + 131072;
        }
    }
    Ok(Some(place as u8))
}

// The place of an upvalue, an equal one's where there is one; `is_local` of a local of the function around, not of an upvalue of it.
pub fn add_upvalue(
    t: &mut [u64],
    level: usize,
    is_local: bool,
    index: u8,
) -> Result<Option<u8>, Uncaptured>
    requires { (level < levels) × (Wf t.old) }
    ensures { Added t.old t.new level (record { idx = index; is_local = is_local }) result }
{
    let base = level * Table::LEVEL_WORDS + Table::UPVALUES;
    let count = level * Table::LEVEL_WORDS + Table::UPVALUE_COUNT;
    let n = t[count] as usize;
    let w = (is_local as u64) * 256 + (index as u64);
    let place = first(&t[base..base + n], w);
    if let Some(i) = place {
        return Ok(Some(i as u8));
    }
    if Limit::UPVALUES <= n {
        return Err(Uncaptured::Full);
    }
    t[base + n] = w;
    t[count] = (n + 1) as u64;
    Ok(Some(n as u8))
}

// A local of the function around, or what that function finds further out.
pub fn resolve_upvalue(t: &mut [u64], level: usize, name: u16) -> Result<Option<u8>, Uncaptured>
    requires { (level < levels) × (Wf t.old) }
    ensures { Captured t.old t.new level name result }
{
    if level == 0 {
        return Ok(None);
    }
    let out = level - 1;
    let slot = resolve_local(t, out, name, true);
    match slot {
        Ok(Some(i)) => return add_upvalue(t, level, true, i),
        Ok(None) => {}
        Err(_) => return Err(Uncaptured::Unready),
    }
    let r = resolve_upvalue(t, out, name);
    let Ok(Some(i)) = r else {
        return r;
    };
    add_upvalue(t, level, false, i)
}

// The place of the local that a declaration of this name at this depth clashes with.
pub fn clashing(locals: &[u64], depth: u64, name: u64) -> Option<usize>
    ensures { is_some result ≡ declared_here depth name (stack (λ i. local_of (get_or locals.now i 0)) (length locals.now)) }
{
    let mut i = locals.len();
    // a scan leaves by `break` with the place found, a rule of the project (docs/DECISIONS.md): so it is a `loop`, not `rposition`
    let place = loop {
        if i == 0 {
            break None;
        }
        i -= 1;
        let w = locals[i];
        if w / 65536 / 2 / 2 < depth {
            break None;
        }
        if w % 65536 == name {
            break Some(i);
        }
    };
    place
}

pub fn declare_local(t: &mut [u64], level: usize, name: u16) -> Result<(), Undeclared>
    requires { (level < levels) × (Wf t.old) }
    ensures { DeclaredAt t.old t.new level name result }
{
    let base = level * Table::LEVEL_WORDS;
    let n = t[base + Table::LOCAL_COUNT] as usize;
    let depth = t[base + Table::DEPTH];
    if clashing(&t[base..base + n], depth, name as u64).is_some() {
        return Err(Undeclared::Already);
    }
    if Limit::LOCALS <= n {
        return Err(Undeclared::Full);
    }
    t[base + n] = depth * 262144 + (name as u64);
    t[base + Table::LOCAL_COUNT] = (n + 1) as u64;
    Ok(())
}

pub fn define_local(t: &mut [u64], level: usize)
    requires { (level < levels) × (Wf t.old) }
    ensures { DefinedAt t.old t.new level }
{
    let base = level * Table::LEVEL_WORDS;
    let n = t[base + Table::LOCAL_COUNT] as usize;
    if n == 0 {
        return;
    }
    let at = base + (n - 1);
    let w = t[at];
    if w / 65536 % 2 == 0 {
        t[at] = w + 65536;
    }
}

// The newest local goes.
pub fn drop_local(t: &mut [u64], level: usize)
    requires { (level < levels) × (Wf t.old) × (0 < get_or t.old (level * level_words + local_count_place) 0) }
    ensures { Dropped t.old t.new level (local_of (get_or t.old (level * level_words + (get_or t.old (level * level_words + local_count_place) 0 - 1)) 0)) }
{
    let count = level * Table::LEVEL_WORDS + Table::LOCAL_COUNT;
    t[count] = t[count] - 1;
}
