// The node whose row is at a place of a tree table: the places of its children, and their texts. Where no whole row is at the place
// there are none. Rule, tree and place are plain, as each caller has them; `first_text` and `child` take the
// rows that begin with the node's.
ghost use Rattle.std.specs.Prelude.{◌≡◌, ◌+◌, ◌<◌, drop};
ghost use Rattle.syntax.specs.Kind.{IDENT, INT_LIT, ROOT};
ghost use Rattle.syntax.specs.Kinds.{number};
ghost use Rattle.trees.specs.Look.{is_comparison};
ghost use Rattle.predicate.specs.Truth.{content, first_text, literal_of};
ghost use Rattle.predicate.specs.Rows.{ROW, level_at, children_at, of_kind, of_node, rows_from, first_row};

use crate::rows;
use syntax::kind::Kind;
use syntax::text;

// The place of the row of the first node inside.
pub fn first_child(tree: &[u32], at: usize) -> Option<usize>
    ensures { result ≡ first_row of_node tree.now (level_at tree.now at + 1) (at + ROW) }
{
    let level = rows::row_level(tree, at)?;
    rows::find_child(tree, level as usize + 1, at + rows::ROW)
}

// The place of the row of the first child of a kind, a node or a token.
pub fn child_of_kind(tree: &[u32], at: usize, kind: u32) -> Option<usize>
    ensures { result ≡ first_row (of_kind kind) tree.now (level_at tree.now at + 1) (at + ROW) }
{
    let level = rows::row_level(tree, at)?;
    rows::find_row(tree, level as usize + 1, kind, at + rows::ROW)
}

// The place of the row of the first comparison operator inside.
pub fn comparison_operator(tree: &[u32], at: usize) -> Option<usize>
    ensures { result ≡ first_row is_comparison tree.now (level_at tree.now at + 1) (at + ROW) }
{
    let level = rows::row_level(tree, at)?;
    rows::find_operator(tree, level as usize + 1, at + rows::ROW)
}

// The text of the first word inside, a part of the rule.
#[tactic(auto, using(crate::proofs::NodeLaws::children_tail))]
#[inline(always)]
pub fn ident<'a>(rule: &'a [u8], tree: &[u32], at: usize) -> &'a [u8]
    ensures { result.now ≡ first_text IDENT (children_at rule.now tree.now at) }
{
    first_text(rule, rows::tail(tree, at), Kind::Ident)
}

// The text of the first integer inside, a part of the rule.
#[tactic(auto, using(crate::proofs::NodeLaws::children_tail))]
pub fn integer<'a>(rule: &'a [u8], tree: &[u32], at: usize) -> &'a [u8]
    ensures { result.now ≡ first_text INT_LIT (children_at rule.now tree.now at) }
{
    first_text(rule, rows::tail(tree, at), Kind::IntLit)
}

// The content of the string inside, a part of the rule.
#[inline(always)]
pub fn find_string_literal<'a>(rule: &'a [u8], tree: &[u32], at: usize) -> &'a [u8]
    ensures { result.now ≡ literal_of (children_at rule.now tree.now at) }
{
    let literal = child(rows::tail(tree, at), Kind::Literal);
    content(first_text(rule, literal, Kind::StringLit))
}

// The text of the first token of a kind inside the node that rows begin with.
fn first_text<'a>(rule: &'a [u8], node: &[u32], kind: Kind) -> &'a [u8]
    requires { number kind < ROOT }
    ensures { result.now ≡ first_text (number kind) (children_at rule.now node.now 0) }
{
    match child(node, kind) {
        [_, _, first, end, ..] => text::part(rule, *first as usize, *end as usize),
        _ => &[],
    }
}

// The rows from the first child of a kind on, a node or a token, of the node that rows begin with; none where it has none.
fn child(node: &[u32], kind: Kind) -> &[u32]
    ensures { result.now ≡ rows_from (of_kind (number kind)) (level_at node.now 0 + 1) (drop ROW node.now) }
{
    match node {
        [_, level, _, _, inside @ ..] => rows::rows_of_kind(
            inside,
            *level as usize + 1,
            kind.into(),
        ),
        _ => &[],
    }
}

// The bytes between the quotes of a string.
fn content(string: &[u8]) -> &[u8]
    ensures { result.now ≡ content string.now }
{
    match string {
        [_, inside @ .., _] => inside,
        _ => &[],
    }
}
