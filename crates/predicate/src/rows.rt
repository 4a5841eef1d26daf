// Rows of a tree table: kind, level, first byte, end byte. The children of a node are the rows one level below it that follow its own,
// as far as the next row that is not below it.
ghost use Rattle.std.specs.Prelude.{◌≡◌, ℕ, ◌+◌, ◌≤◌, ◌<◌, Bool, length, drop, MatchOption};
ghost use Rattle.syntax.specs.Kinds.{Names};
ghost use Rattle.trees.specs.Look.{is_comparison};
ghost use Rattle.predicate.specs.Rows.{kind_at, level_at, is_below, of_kind, of_node, rows_from};
ghost use Rattle.predicate.specs.Rows as meant;
ghost use Rattle.predicate.specs.Eval.{IsRow, Tells, Finds, Skips};

use lexer::limits::TREE_ROW;
use syntax::kind::{Kind, UnknownKind};

// The numbers of a row.
pub const ROW: usize = TREE_ROW;

// The rows of a table from a place on.
pub(crate) fn tail(tree: &[u32], at: usize) -> &[u32]
    ensures { result.now ≡ drop at tree.now }
{
    tree.get(at..).unwrap_or(&[])
}

// The level of the row at a place, if a whole one is there.
pub(crate) fn row_level(tree: &[u32], at: usize) -> Option<u32>
    ensures { MatchOption result (length tree.now < at + meant.ROW) (IsRow tree.now at) }
{
    match tree.get(at..)? {
        [_, level, _, _, ..] => Some(*level),
        _ => None,
    }
}

// The kind of the row at a place, if its number is a kind's; WHITESPACE, whose number is 0, where no row is there.
#[inline(always)]
pub fn kind_at(tree: &[u32], at: usize) -> Result<Kind, UnknownKind>
    ensures { Names (kind_at tree.now at) result }
{
    Kind::try_from(tree.get(at).copied().unwrap_or(0))
}

// Its level; 0 where no row is there. The definitions have these numbers for any table, so that places need no test.
#[inline(always)]
pub fn level_at(tree: &[u32], at: usize) -> u32
    ensures { result ≡ level_at tree.now at }
{
    match tree.get(at..) {
        Some([_, level, ..]) => *level,
        _ => 0,
    }
}

// Whether a kind, by its number, is that of a node.
pub(crate) fn is_node(kind: u32) -> bool
    ensures { result ≡ of_node kind }
{
    u32::from(Kind::Root) <= kind
}

// Whether it is that of one of the six comparison operators.
#[tactic(auto, unfolding(trees::specs::Look::is_comparison))]
fn is_comparison(kind: u32) -> bool
    ensures { result ≡ is_comparison kind }
{
    matches!(
        Kind::try_from(kind),
        Ok(Kind::Ge | Kind::Gt | Kind::Le | Kind::Lt | Kind::EqEq | Kind::Neq)
    )
}

// The first row of a kind at a level, from a place on, before one that is above the level.
pub(crate) fn find_row(tree: &[u32], level: usize, kind: u32, from: usize) -> Option<usize>
    ensures { Finds (of_kind kind) tree.now level from result }
{
    find(tree, level, from, |k| k == kind)
}

// The first node at a level, from a place on, before a row that is above the level.
pub(crate) fn find_child(tree: &[u32], level: usize, from: usize) -> Option<usize>
    ensures { Finds of_node tree.now level from result }
{
    find(tree, level, from, |k| is_node(k))
}

// The first operator of a comparison at a level, from a place on, before a row that is above the level.
pub(crate) fn find_operator(tree: &[u32], level: usize, from: usize) -> Option<usize>
    ensures { Finds is_comparison tree.now level from result }
{
    find(tree, level, from, |k| is_comparison(k))
}

// The first row at a level whose kind passes a test, from a place on, before a row that is above the level.
fn find<F: Fn(u32) -> bool>(tree: &[u32], level: usize, from: usize, test: F) -> Option<usize>
    requires { F.IsAlwaysCallable test }
    ensures { (p : ℕ → Bool) → Tells (F.post test) p → Finds p tree.now level from result }
{
    match rows_from(tree.get(from..)?, level, test) {
        [] => None,
        found => Some(tree.len() - found.len()),
    }
}

// The rows from the first one that is at a level and of a kind, before one that is above the level; none where there is none.
pub(crate) fn rows_of_kind(rows: &[u32], level: usize, kind: u32) -> &[u32]
    ensures { result.now ≡ rows_from (of_kind kind) level rows.now }
{
    rows_from(rows, level, |k| k == kind)
}

// The same of one whose kind passes a test. A chain would ask each row's level twice, to go on and to find.
fn rows_from<F: Fn(u32) -> bool>(all: &[u32], level: usize, test: F) -> &[u32]
    requires { F.IsAlwaysCallable test }
    ensures found { (p : ℕ → Bool) → Tells (F.post test) p → result.now ≡ rows_from p level all.now }
    ensures shorter { length result.now ≤ length all.now }
{
    let mut rows = all;
    while let [kind, here, _, _, after @ ..] = rows {
        let here = *here as usize;
        if here < level {
            return &[];
        }
        if here == level && test(*kind) {
            return rows;
        }
        rows = after;
    }
    &[]
}

// The place of the first row from a place on that is not below a level, or past the last whole row.
pub(crate) fn skip_below(tree: &[u32], level: usize, from: usize) -> usize
    ensures { Skips tree.now level from result }
{
    let (rows, _) = tail(tree, from).as_chunks::<ROW>();
    let below = rows.iter().take_while(|row| level < row[1] as usize);
    from + ROW * below.count()
}

// Whether a row is at a place and is below a level.
pub fn is_below(tree: &[u32], level: usize, at: usize) -> bool
    ensures { result ≡ is_below tree.now level at }
{
    match row_level(tree, at) {
        Some(here) => level < here as usize,
        None => false,
    }
}
