// The names: in strictly rising byte order, and none of the four fixed ones.
#![tactic(auto)]

ghost use Rattle.std.specs.Prelude.{◌≡◌, ◌+◌, ◌≤◌, length};
ghost use Rattle.std.proofs.Math.Option.{none};
ghost use Rattle.rules.specs.Base.{all};
ghost use Rattle.rules.specs.TreeFile.{differs, fixed_names, rises, read_names};
ghost use Rattle.tree_small.specs.Places.{place};
ghost use Rattle.tree_names.specs.Names.{last_name, LastFits, NameRead};

use fields::Mark;
use rules::Refusal;

// None of the four fixed names.
fn may_be_written(text: &[u8]) -> bool
    ensures { result ≡ all (differs text.now text.now) fixed_names }
{
    text != b"this".as_slice()
        && text != b"super".as_slice()
        && text != b"init".as_slice()
        && text != b"<script>".as_slice()
}

// Above the name whose record starts at `last` and ends at `end`, in the order of bytes, in which a prefix comes first. The first name has none before it.
fn is_above(tree: &[u8], last: Option<usize>, end: usize, text: &[u8]) -> bool
    requires { LastFits tree.now last end }
    ensures { result ≡ rises tree.now (last_name tree.now last end) text.now }
{
    let Some(start) = last else {
        return true;
    };
    let from = start + 4;
    let before = &tree[from..end];
    before.cmp(&text).is_lt()
}

// The name whose record starts at `at`, where that of the one before it starts at `last`.
fn check_name(tree: &[u8], last: Option<usize>, at: usize) -> Result<usize, Refusal>
    requires { LastFits tree.now last at }
    ensures { NameRead tree.now last at result }
{
    if !fields::has(tree, at, 4) {
        return Err(Refusal::TreeForm(at));
    }
    if fields::mark_at(tree, at) != Mark::NAME {
        return Err(Refusal::TreeForm(at));
    }
    let size = fields::u16_at(tree, at + 2) as usize;
    let from = at + 4;
    if !fields::has(tree, from, size) {
        return Err(Refusal::TreeForm(at));
    }
    let end = from + size;
    if !is_above(tree, last, at, &tree[from..end]) {
        return Err(Refusal::TreeForm(at));
    }
    if !may_be_written(&tree[from..end]) {
        return Err(Refusal::TreeForm(at));
    }
    Ok(end)
}

// `count` names in a row.
pub fn check_names(tree: &[u8], count: u16, at: usize) -> Result<usize, Refusal>
    requires { at ≤ length tree.now }
    ensures { result ≡ place (read_names tree.now count none at) }
{
    let mut last = None;
    let mut next = at;
    for _ in 0..count {
        let past = check_name(tree, last, next)?;
        last = Some(next);
        next = past;
    }
    Ok(next)
}
