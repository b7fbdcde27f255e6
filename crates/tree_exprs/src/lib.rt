// Expressions. A record's own fields are read first, and then the expressions that they announce, one after the other.
#![tactic(auto)]

ghost use Rattle.std.specs.Prelude.{◌≡◌, ◌+◌, MatchOption, Ok, Err};
ghost use Rattle.rules.specs.declared.Refusal.TheVariants.{TreeForm};
ghost use Rattle.rules.specs.declared.Span.{Span};
ghost use Rattle.rules.specs.Reader.{u16};
ghost use Rattle.rules.specs.TreeFile.{expr_marks, literal_fields, read_expr};
ghost use Rattle.tree_small.specs.Places.{place, row, known_mark};
ghost use Rattle.tree_exprs.specs.Exprs.{with_callee, number, Announces, Opens};

use fields::Mark;
use rules::Refusal;
use tree_small::{Opened, byte_at, count_at, name_at};

// The mark of the expression that starts at `at`, where one does.
fn expr_mark(tree: &[u8], at: usize) -> Option<u16>
    ensures { result ≡ known_mark expr_marks tree.now at }
{
    if !fields::has(tree, at, 2) {
        return None;
    }
    let mark = fields::mark_at(tree, at);
    match mark {
        Mark::ASSIGN
        | Mark::CALL
        | Mark::GET
        | Mark::INFIX
        | Mark::LITERAL
        | Mark::PREFIX
        | Mark::SET
        | Mark::SUPER => Some(mark),
        Mark::VARIABLE => Some(mark),
        _ => None,
    }
}

// A number's bits: no sign, no NaN.
const MAX_BITS: u64 = 0x7FF0000000000000;

fn number_at(opened: &Opened, at: usize) -> Result<usize, Refusal>
    ensures { result ≡ place (number opened.now.tree.now (TreeForm opened.now.start) at) }
{
    if !fields::has(opened.tree, at, 8) {
        return Err(Refusal::TreeForm(opened.start));
    }
    if MAX_BITS < fields::u64_at(opened.tree, at) {
        return Err(Refusal::TreeForm(opened.start));
    }
    Ok(at + 8)
}

// What follows a literal's span: its kind, and the number or the string.
fn literal_at(opened: &Opened, names: u16) -> Result<usize, Refusal>
    ensures { (s : Span) → result ≡ place (literal_fields opened.now.tree.now names (TreeForm opened.now.start) s (opened.now.start + 10)) }
{
    let start = opened.start;
    let Some(kind) = byte_at(opened.tree, 5, start + 10) else {
        return Err(Refusal::TreeForm(start));
    };
    if kind < 3 {
        return Ok(start + 11);
    }
    if kind == 3 {
        return number_at(opened, start + 11);
    }
    let Some(_) = name_at(opened.tree, names, start + 11) else {
        return Err(Refusal::TreeForm(start));
    };
    Ok(start + 13)
}

// The field before them is there: then `kids` expressions from `from` on.
fn followed(
    field: Option<usize>,
    start: usize,
    from: usize,
    kids: usize,
) -> Result<(usize, usize), Refusal>
    ensures { MatchOption field (result ≡ Err (TreeForm start)) (λ _. result ≡ Ok (from, kids)) }
{
    let Some(_) = field else {
        return Err(Refusal::TreeForm(start));
    };
    Ok((from, kids))
}

// The number of arguments, and then the callee and they.
fn called(opened: &Opened) -> Result<(usize, usize), Refusal>
    ensures { result ≡ with_callee (u16 opened.now.tree.now (TreeForm opened.now.start) (opened.now.start + 10)) }
{
    let start = opened.start;
    let Some(count) = count_at(opened.tree, start + 10) else {
        return Err(Refusal::TreeForm(start));
    };
    Ok((start + 12, count + 1))
}

// What follows the span, by the mark: from where and how many expressions follow.
fn expr_kids(opened: &Opened, names: u16, mark: u16) -> Result<(usize, usize), Refusal>
    ensures { Announces opened.now.tree.now names mark opened.now.start result }
{
    let (tree, start) = (opened.tree, opened.start);
    let at = start + 10;
    match mark {
        Mark::ASSIGN | Mark::GET => followed(name_at(tree, names, at), start, at + 2, 1),
        Mark::CALL => called(opened),
        Mark::INFIX => followed(byte_at(tree, 12, at), start, at + 1, 2),
        Mark::PREFIX => followed(byte_at(tree, 2, at), start, at + 1, 1),
        Mark::SET => followed(name_at(tree, names, at), start, at + 2, 2),
        Mark::SUPER => followed(name_at(tree, names, at), start, at + 2, 0),
        Mark::VARIABLE => followed(name_at(tree, names, at), start, at + 2, 0),
        _ => Ok((literal_at(opened, names)?, 0)),
    }
}

// The record at `start`, but for the expressions in it: its mark, 4, and then the rest.
fn open_expr(tree: &[u8], names: u16, depth: usize, start: usize) -> Result<(usize, usize), Refusal>
    ensures { Opens tree.now names depth start result }
{
    let Some(mark) = expr_mark(tree, start) else {
        return Err(Refusal::TreeForm(start));
    };
    if depth == 0 {
        return Err(Refusal::TreeTooDeep(start));
    }
    if !fields::has(tree, start, 10) {
        return Err(Refusal::TreeForm(start));
    }
    expr_kids(&Opened { tree, start }, names, mark)
}

#[cycle(check_expr_check_exprs)]
pub fn check_expr(tree: &[u8], names: u16, depth: usize, at: usize) -> Result<usize, Refusal>
    ensures { result ≡ place (read_expr tree.now names depth at) }
{
    let (from, count) = open_expr(tree, names, depth, at)?;
    if count == 0 {
        return Ok(from);
    }
    check_exprs(tree, names, depth - 1, count, from)
}

// `count` expressions in a row.
#[cycle(check_expr_check_exprs)]
pub fn check_exprs(
    tree: &[u8],
    names: u16,
    depth: usize,
    count: usize,
    at: usize,
) -> Result<usize, Refusal>
    ensures { result ≡ row (λ n. place (read_expr tree.now names depth n)) count at }
{
    let mut next = at;
    for _ in 0..count {
        next = check_expr(tree, names, depth, next)?;
    }
    Ok(next)
}
