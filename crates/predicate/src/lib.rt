// eval.rs, "Predicate evaluation": what a predicate says of one member. The Rust has a function for each sort of member; here they are
// one, as they differ only in the atoms, which `atom` has. It reads the rows of the predicate's tree once, in their order.
#![tactic(auto)]

pub mod atom;
pub mod node;
pub mod rows;

ghost use Rattle.std.specs.Prelude.{◌≡◌, ◌+◌, ◌≤◌, length};
ghost use Rattle.std.specs.Option.{ForSome};
ghost use Rattle.predicate.specs.Truth.{truth, or_after};
ghost use Rattle.predicate.specs.Rows.{ROW, children_at, node_at};
ghost use Rattle.predicate.specs.Eval.{Evaluated, Inner, Operand, Joins, Joined};
ghost use Rattle.predicate.specs.Atoms.{AskedAt};

use atom::{Atom, Member};
use syntax::kind::Kind;

// What evaluates the nodes of a rule's tree: the rule, its tree, and the member of a board that they are asked of.
#[derive(Clone, Copy)]
struct Evaluator<'a> {
    rule: &'a [u8],
    image: &'a [u8],
    tree: &'a [u32],
    member: Member,
}

// The truth of a node, and the place of the row after its last.
#[derive(Clone, Copy)]
struct Truth {
    value: bool,
    next: usize,
}

// How far the operands of a BINARY_EXPR are joined: the place reached, whether the last operator is `or`, and the truth so far.
#[derive(Clone, Copy)]
struct Operands {
    at: usize,
    or: bool,
    before: bool,
}

// Whether the predicate whose row is at a place of the tree table is true of a member; false where no row is there.
pub fn eval_predicate(rule: &[u8], image: &[u8], tree: &[u32], member: Member, at: usize) -> bool
    ensures { result ≡ truth image.now member (node_at rule.now tree.now at) }
{
    let evaluator = Evaluator {
        rule,
        image,
        tree,
        member,
    };
    match rows::row_level(tree, at) {
        Some(_) => evaluator.eval_node(at).value,
        None => false,
    }
}

// The predicate in a CALL_ARGS, asked of many members: where it is one atom, but for `not` and brackets around it, its texts were found.
#[derive(Clone, Copy)]
pub struct Predicate<'a> {
    pub rule: &'a [u8],
    pub tree: &'a [u32],
    pub at: usize,
    atom: Option<Asked<'a>>,
    ghost so: { ForSome atom (AskedAt rule.now tree.now at) },
}

// An atom, or that it is not so.
#[derive(Clone, Copy)]
struct Asked<'a> {
    atom: Atom<'a>,
    not: bool,
}

impl<'a> Predicate<'a> {
    // The first node inside the one whose row is at a place.
    pub fn new(rule: &'a [u8], tree: &'a [u32], at: usize) -> Predicate<'a>
        ensures { (result.rule ≡ rule.entry) × (result.tree ≡ tree.entry) × (result.at ≡ at) }
    {
        Predicate {
            rule,
            tree,
            at,
            atom: find_atom(rule, tree, at),
        }
    }

    // Whether it is true of a member; false where there is no such node.
    pub fn is_true(&self, image: &[u8], member: Member) -> bool
        ensures { result ≡ truth image.now member (children_at self.now.rule.now self.now.tree.now self.now.at) }
    {
        if let Some(Asked { atom, not }) = self.atom {
            let value = atom.is_true(image, member);
            return if not { !value } else { value };
        }
        let evaluator = Evaluator {
            rule: self.rule,
            image,
            tree: self.tree,
            member,
        };
        evaluator.eval_inside(self.at)
    }
}

// The atom that the first node inside is, but for `not` and brackets around it; one that is false where there is no node.
fn find_atom<'a>(rule: &'a [u8], tree: &[u32], at: usize) -> Option<Asked<'a>>
    ensures { ForSome result (AskedAt rule.now tree.now at) }
{
    let Some(predicate) = node::first_child(tree, at) else {
        return Some(Asked {
            atom: Atom::Other,
            not: false,
        });
    };
    match rows::kind_at(tree, predicate) {
        Ok(Kind::BinaryExpr) => None,
        Ok(Kind::UnaryExpr) => {
            let Asked { atom, not } = find_atom(rule, tree, predicate)?;
            Some(Asked { atom, not: !not })
        }
        Ok(Kind::ParenExpr) => find_atom(rule, tree, predicate),
        Ok(kind) => Some(Asked {
            atom: Atom::find(rule, tree, kind, predicate),
            not: false,
        }),
        Err(_) => Some(Asked {
            atom: Atom::Other,
            not: false,
        }),
    }
}

impl Evaluator<'_> {
    // The truth of the first node inside the one whose row is at a place; false where there is none. Nothing comes after it, so `not` and
    // brackets around it are entered without passing over the rows behind them.
    fn eval_inside(&self, at: usize) -> bool
        ensures { result ≡ truth self.now.image.now self.now.member (children_at self.now.rule.now self.now.tree.now at) }
    {
        let Some(first) = node::first_child(self.tree, at) else {
            return false;
        };
        match rows::kind_at(self.tree, first) {
            Ok(Kind::ParenExpr) => self.eval_inside(first),
            Ok(Kind::UnaryExpr) => !self.eval_inside(first),
            _ => self.eval_node(first).value,
        }
    }

    // The truth of a node, and where the rows after it begin.
    #[cycle(eval_node)]
    fn eval_node(&self, at: usize) -> Truth
        requires { at + ROW ≤ length self.now.tree.now }
        ensures { Evaluated self.now at result }
    {
        let level = self.tree[at + 1];
        let inside = at + rows::ROW;
        let value = match Kind::try_from(self.tree[at]) {
            Ok(Kind::BinaryExpr) => return self.eval_operands(level, inside),
            Ok(Kind::UnaryExpr) => {
                let inner = self.eval_inner(level, inside);
                return Truth {
                    value: !inner.value,
                    next: inner.next,
                };
            }
            Ok(Kind::ParenExpr) => return self.eval_inner(level, inside),
            Ok(kind) => Atom::find(self.rule, self.tree, kind, at).is_true(self.image, self.member),
            Err(_) => false,
        };
        Truth {
            value,
            next: rows::skip_below(self.tree, level as usize, inside),
        }
    }

    // The first node below a level from a place on: its truth, or false where there is none.
    #[inline(always)]
    #[cycle(eval_node)]
    fn eval_inner(&self, level: u32, from: usize) -> Truth
        ensures { Inner self.now level from result }
    {
        let level = level as usize;
        match rows::find_child(self.tree, level + 1, from) {
            Some(at) => {
                let inner = self.eval_node(at);
                Truth {
                    value: inner.value,
                    next: rows::skip_below(self.tree, level, inner.next),
                }
            }
            None => Truth {
                value: false,
                next: rows::skip_below(self.tree, level, from),
            },
        }
    }

    // The operands below a level from a place on, joined from left to right. A step passes over as many rows as it likes: no range counts
    // it.
    #[inline(always)]
    #[cycle(eval_node)]
    fn eval_operands(&self, level: u32, from: usize) -> Truth
        ensures { Joined self.now level from result }
    {
        let mut operands = Operands {
            at: from,
            or: false,
            before: true,
        };
        while rows::is_below(self.tree, level as usize, operands.at) {
            operands = self.eval_operand(level, operands);
        }
        Truth {
            value: operands.before,
            next: operands.at,
        }
    }

    // One row more: an operator, or an operand, which is passed over where it cannot change the truth so far.
    #[cycle(eval_node)]
    fn eval_operand(&self, level: u32, operands: Operands) -> Operands
        requires { Operand self.now.tree.now level operands }
        ensures { Joins self.now level operands result }
    {
        let Operands { at, or, before } = operands;
        let below = level as usize + 1;
        let after = at + rows::ROW;
        let kind = self.tree[at];
        if below < self.tree[at + 1] as usize {
            return Operands {
                at: after,
                or,
                before,
            };
        }
        if !rows::is_node(kind) {
            return Operands {
                at: after,
                or: or_after(kind, or),
                before,
            };
        }
        if before == or {
            return Operands {
                at: rows::skip_below(self.tree, below, after),
                or,
                before,
            };
        }
        let operand = self.eval_node(at);
        Operands {
            at: operand.next,
            or,
            before: operand.value,
        }
    }
}

// Whether the operator is `or` after a token of a kind.
fn or_after(kind: u32, or: bool) -> bool
    ensures { result ≡ or_after kind or }
{
    match Kind::try_from(kind) {
        Ok(Kind::OrKw) => true,
        Ok(Kind::AndKw) => false,
        _ => or,
    }
}
