// The tree file is read once, from the first byte to the last, and what comes back is where its statements stand or the first refusal.
// No tree is made: what a file means is its value under the rules' reader, and each function here says where that reader gets to.
#![tactic(auto)]

ghost use Rattle.std.specs.Prelude.{◌≡◌};
ghost use Rattle.rules.specs.TreeFile.{read_tree};
ghost use Rattle.tree.specs.Checked.{checked, checked_file};
ghost use Rattle.tree.specs.Read.{read_answer};

use answers::{accepted, refused};
use fields::Mark;
use rules::{Answer, Limit, Refusal};
use tree_names::check_names;
use tree_stmts::check_stmts;

// Where a sound file's statements stand: how many names there are, how many statements, and the place of the first.
#[derive(Drop)]
pub struct Script {
    pub names: u16,
    pub count: u16,
    pub at: usize,
}

// The whole file, within limits that the caller sets: records inside one another, and `SF` records inside one another.
pub fn read_within(tree: &[u8], depth: usize, funs: usize) -> Result<Script, Refusal>
    ensures { result ≡ checked tree.now (read_tree tree.now depth funs) }
{
    if !fields::has(tree, 0, 6) {
        return Err(Refusal::TreeForm(0));
    }
    if fields::mark_at(tree, 0) != Mark::TREE {
        return Err(Refusal::TreeForm(0));
    }
    let names = fields::u16_at(tree, 2);
    let count = fields::u16_at(tree, 4);
    if Limit::NAMES < names {
        return Err(Refusal::TreeForm(0));
    }
    let at = check_names(tree, names, 6)?;
    let end = check_stmts(tree, names, depth, funs, false, count as usize, at)?;
    // The file ends where its last statement does.
    if end != tree.len() {
        return Err(Refusal::TreeForm(end));
    }
    Ok(Script { names, count, at })
}

// The whole file, with 2 before all else.
pub fn read(tree: &[u8]) -> Result<Script, Refusal>
    ensures { result ≡ checked_file tree.now }
{
    if Limit::TREE_BYTES < tree.len() {
        return Err(Refusal::TreeTooLong);
    }
    read_within(tree, Limit::DEPTH, Limit::FUNS)
}

// The reader's answer to a file, whatever the compiler would make of it: 0, or 2 to 5 with the place in `at`.
pub fn answer(tree: &[u8]) -> Answer
    ensures { result ≡ read_answer tree.now }
{
    match read(tree) {
        Ok(_) => accepted(0),
        Err(r) => refused(r),
    }
}
