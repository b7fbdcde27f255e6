// Statements and methods. A record's own fields are read first, and a class's superclass with them, and then the records that they announce.
#![tactic(auto)]

ghost use Rattle.std.specs.Prelude.{◌≡◌, ◌<◌};
ghost use Rattle.rules.specs.declared.Refusal.TheVariants.{TreeForm};
ghost use Rattle.rules.specs.Reader.{u16};
ghost use Rattle.rules.specs.TreeFile.{read_superclass};
ghost use Rattle.tree_small.specs.Places.{place, row};
ghost use Rattle.tree_stmts.specs.Stmts.{known_stmt, stmt_place, kids_place, plain, body_from, ClassKids, FunKids, IfKids, ForKids, ValueKids, VarKids, StmtKids, StmtOpens};
ghost use Rattle.fields.specs.Marks as marks;

use fields::Mark;
use rules::Refusal;
use tree_exprs::{check_expr, check_exprs};
use tree_small::{Opened, byte_at, count_at, name_at, names_at};

// What a statement's fields announce. From `at` on stand `init` statements, `cond` expressions, `body` records and `incr` expressions,
// the statements with `funs` more `SF` to open in them; the records of the body are `methods`, or statements.
#[derive(Drop)]
pub struct Plan {
    pub at: usize,
    pub init: usize,
    pub cond: usize,
    pub body: usize,
    pub incr: usize,
    pub funs: usize,
    pub methods: bool,
}

// Of a statement that holds expressions alone it says from where and how many, and no more: most statements are such, and a plan is long to hand on.
#[derive(Drop)]
pub enum Head {
    Kids(Plan),
    Exprs(usize, usize),
}

// The mark of the statement that starts at `at`, or of the method, where one does.
fn stmt_mark(tree: &[u8], method: bool, at: usize) -> Option<u16>
    ensures { result ≡ known_stmt method tree.now at }
{
    if !fields::has(tree, at, 2) {
        return None;
    }
    let mark = fields::mark_at(tree, at);
    if mark == Mark::FUN {
        return Some(mark);
    }
    if method {
        return None;
    }
    match mark {
        Mark::BLOCK | Mark::EXPRESSION | Mark::FOR | Mark::RETURN | Mark::VAR => Some(mark),
        Mark::CLASS | Mark::IF | Mark::PRINT | Mark::WHILE => Some(mark),
        _ => None,
    }
}

// The superclass of a class: an `EV` and nothing else.
fn superclass(tree: &[u8], names: u16, depth: usize, at: usize) -> Result<usize, Refusal>
    ensures { result ≡ place (read_superclass tree.now names depth at) }
{
    if !fields::has(tree, at, 2) {
        return Err(Refusal::TreeForm(at));
    }
    if fields::mark_at(tree, at) != Mark::VARIABLE {
        return Err(Refusal::TreeForm(at));
    }
    check_expr(tree, names, depth, at)
}

// `cond` expressions and then `body` records, from `at` on.
fn planned(at: usize, cond: usize, body: usize, funs: usize, methods: bool) -> Head
    ensures { result ≡ plain at cond body funs methods }
{
    Head::Kids(Plan {
        at,
        init: 0,
        cond,
        body,
        incr: 0,
        funs,
        methods,
    })
}

// The number of statements, at `at`, and then they.
fn body_kids(opened: &Opened, at: usize, funs: usize) -> Result<Head, Refusal>
    ensures { result ≡ body_from (u16 opened.now.tree.now (TreeForm opened.now.start) at) funs }
{
    let Some(count) = count_at(opened.tree, at) else {
        return Err(Refusal::TreeForm(opened.start));
    };
    Ok(planned(at + 2, 0, count, funs, false))
}

// The superclass is read here: it has no children.
fn class_kids(opened: &Opened, names: u16, depth: usize, funs: usize) -> Result<Head, Refusal>
    ensures { ClassKids opened.now.tree.now names depth opened.now.start funs result }
{
    let (tree, start) = (opened.tree, opened.start);
    let Some(_) = name_at(tree, names, start + 10) else {
        return Err(Refusal::TreeForm(start));
    };
    let Some(has_super) = byte_at(tree, 2, start + 12) else {
        return Err(Refusal::TreeForm(start));
    };
    let Some(count) = count_at(tree, start + 13) else {
        return Err(Refusal::TreeForm(start));
    };
    if has_super == 0 {
        return Ok(planned(start + 15, 0, count, funs, true));
    }
    let next = superclass(tree, names, depth, start + 15)?;
    Ok(planned(next, 0, count, funs, true))
}

// A function or a method, whose body may open `funs` more.
fn fun_kids(opened: &Opened, names: u16, funs: usize) -> Result<Head, Refusal>
    ensures { FunKids opened.now.tree.now names opened.now.start funs result }
{
    let (tree, start) = (opened.tree, opened.start);
    let Some(_) = name_at(tree, names, start + 10) else {
        return Err(Refusal::TreeForm(start));
    };
    let Some(arity) = count_at(tree, start + 12) else {
        return Err(Refusal::TreeForm(start));
    };
    let next = names_at(tree, names, start, arity, start + 14)?;
    body_kids(opened, next, funs)
}

fn if_kids(opened: &Opened, funs: usize) -> Result<Head, Refusal>
    ensures { IfKids opened.now.tree.now opened.now.start funs result }
{
    let start = opened.start;
    let Some(has_else) = byte_at(opened.tree, 2, start + 10) else {
        return Err(Refusal::TreeForm(start));
    };
    Ok(planned(start + 11, 1, 1 + has_else, funs, false))
}

// 1 init, 2 condition, 4 increment.
fn for_kids(opened: &Opened, funs: usize) -> Result<Head, Refusal>
    ensures { ForKids opened.now.tree.now opened.now.start funs result }
{
    let start = opened.start;
    let Some(parts) = byte_at(opened.tree, 8, start + 10) else {
        return Err(Refusal::TreeForm(start));
    };
    Ok(Head::Kids(Plan {
        at: start + 11,
        init: parts % 2,
        cond: parts / 2 % 2,
        body: 1,
        incr: parts / 4,
        funs,
        methods: false,
    }))
}

// A flag at `at`, and the expression that it announces.
fn value_kids(opened: &Opened, at: usize) -> Result<Head, Refusal>
    ensures { ValueKids opened.now.tree.now opened.now.start at result }
{
    let Some(has_value) = byte_at(opened.tree, 2, at) else {
        return Err(Refusal::TreeForm(opened.start));
    };
    Ok(Head::Exprs(at + 1, has_value))
}

fn var_kids(opened: &Opened, names: u16) -> Result<Head, Refusal>
    ensures { VarKids opened.now.tree.now names opened.now.start result }
{
    let start = opened.start;
    let Some(_) = name_at(opened.tree, names, start + 10) else {
        return Err(Refusal::TreeForm(start));
    };
    value_kids(opened, start + 12)
}

// What follows the span, by the mark. `depth` is what the children have.
fn stmt_kids(
    opened: &Opened,
    names: u16,
    depth: usize,
    funs: usize,
    mark: u16,
) -> Result<Head, Refusal>
    requires { mark ≡ marks.SF → 0 < funs }
    ensures { StmtKids opened.now.tree.now names depth funs mark opened.now.start result }
{
    let at = opened.start + 10;
    match mark {
        Mark::BLOCK => body_kids(opened, at, funs),
        Mark::CLASS => class_kids(opened, names, depth, funs),
        Mark::EXPRESSION | Mark::PRINT => Ok(Head::Exprs(at, 1)),
        Mark::FUN => fun_kids(opened, names, funs - 1),
        Mark::IF => if_kids(opened, funs),
        Mark::FOR => for_kids(opened, funs),
        Mark::RETURN => value_kids(opened, at),
        Mark::VAR => var_kids(opened, names),
        _ => Ok(planned(at, 1, 1, funs, false)),
    }
}

// The record at `start`, but for the records in it: its mark, 4, 5, and then the rest.
fn open_stmt(
    tree: &[u8],
    names: u16,
    depth: usize,
    funs: usize,
    method: bool,
    start: usize,
) -> Result<Head, Refusal>
    ensures { StmtOpens tree.now names depth funs method start result }
{
    let Some(mark) = stmt_mark(tree, method, start) else {
        return Err(Refusal::TreeForm(start));
    };
    if depth == 0 {
        return Err(Refusal::TreeTooDeep(start));
    }
    if mark == Mark::FUN {
        if funs == 0 {
            return Err(Refusal::TooManyOpen(start));
        }
    }
    if !fields::has(tree, start, 10) {
        return Err(Refusal::TreeForm(start));
    }
    stmt_kids(&Opened { tree, start }, names, depth - 1, funs, mark)
}

// A statement, or where `method` is set a method. The answer of expressions is taken apart and made anew, as in `check_kids`.
#[cycle(check_kids_check_stmt_check_stmts)]
pub fn check_stmt(
    tree: &[u8],
    names: u16,
    depth: usize,
    funs: usize,
    method: bool,
    at: usize,
) -> Result<usize, Refusal>
    ensures { result ≡ stmt_place tree.now names depth funs method at }
{
    match open_stmt(tree, names, depth, funs, method, at) {
        Err(r) => Err(r),
        Ok(Head::Kids(plan)) => check_kids(tree, names, depth - 1, plan),
        Ok(Head::Exprs(from, count)) => Ok(check_exprs(tree, names, depth - 1, count, from)?),
    }
}

// The records that a statement's fields announce. The last answer is taken apart and made anew, since one that is only handed on is copied, and
// the copy waits for what was just written.
#[cycle(check_kids_check_stmt_check_stmts)]
fn check_kids(tree: &[u8], names: u16, depth: usize, plan: Plan) -> Result<usize, Refusal>
    ensures { result ≡ kids_place tree.now names depth plan }
{
    let funs = plan.funs;
    let at = check_stmts(tree, names, depth, funs, false, plan.init, plan.at)?;
    let at = check_exprs(tree, names, depth, plan.cond, at)?;
    let at = check_stmts(tree, names, depth, funs, plan.methods, plan.body, at)?;
    if plan.incr == 0 {
        return Ok(at);
    }
    Ok(check_exprs(tree, names, depth, plan.incr, at)?)
}

// `count` statements or methods in a row.
#[cycle(check_kids_check_stmt_check_stmts)]
pub fn check_stmts(
    tree: &[u8],
    names: u16,
    depth: usize,
    funs: usize,
    methods: bool,
    count: usize,
    at: usize,
) -> Result<usize, Refusal>
    ensures { result ≡ row (stmt_place tree.now names depth funs methods) count at }
{
    let mut next = at;
    for _ in 0..count {
        next = check_stmt(tree, names, depth, funs, methods, next)?;
    }
    Ok(next)
}
