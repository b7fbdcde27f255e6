// The fields that records are made of, and what the readers of a record's fields are handed.
#![tactic(auto)]

ghost use Rattle.std.specs.Prelude.{◌≡◌, ◌+◌, ◌≤◌, length};
ghost use Rattle.rules.specs.declared.Refusal.TheVariants.{TreeForm};
ghost use Rattle.rules.specs.Reader.{u16};
ghost use Rattle.rules.specs.TreeFile.{name};
ghost use Rattle.tree_small.specs.Places.{place, below, row, Tells};

use rules::Refusal;

// A record that is opened: its mark, of 2 bytes, and its span, of 8, lie within the file. The number of names goes beside it: LLVM does not see
// that number's bound through a struct, and the reader is 6 in 100 slower.
#[derive(Drop)]
pub struct Opened<'a> {
    pub tree: &'a [u8],
    pub start: usize,
    pub ghost spanned: { start + 10 ≤ length tree.now },
}

// A byte below `most`. There is none where the field is cut or out of range, here and in the other fields.
pub fn byte_at(tree: &[u8], most: u8, at: usize) -> Option<usize>
    ensures { Tells tree.now (below tree.now most) 1 most at result }
{
    if !fields::has(tree, at, 1) {
        return None;
    }
    let byte = fields::u8_at(tree, at);
    if most <= byte {
        return None;
    }
    Some(byte as usize)
}

pub fn count_at(tree: &[u8], at: usize) -> Option<usize>
    ensures { Tells tree.now (u16 tree.now) 2 65536 at result }
{
    if !fields::has(tree, at, 2) {
        return None;
    }
    Some(fields::u16_at(tree, at) as usize)
}

// A name's number, which is below 4 plus the written names. One function for this and `byte_at` would be handed the reading of a width and its law, and be no plainer.
pub fn name_at(tree: &[u8], names: u16, at: usize) -> Option<usize>
    ensures { Tells tree.now (name tree.now names) 2 (4 + names) at result }
{
    if !fields::has(tree, at, 2) {
        return None;
    }
    let n = fields::u16_at(tree, at) as usize;
    if 4 + names as usize <= n {
        return None;
    }
    Some(n)
}

// `count` names in a row, in the record at `start`: the place after them.
pub fn names_at(
    tree: &[u8],
    names: u16,
    start: usize,
    count: usize,
    at: usize,
) -> Result<usize, Refusal>
    ensures { result ≡ row (λ n. place (name tree.now names (TreeForm start) n)) count at }
{
    let mut next = at;
    for _ in 0..count {
        let Some(_) = name_at(tree, names, next) else {
            return Err(Refusal::TreeForm(start));
        };
        next += 2;
    }
    Ok(next)
}
