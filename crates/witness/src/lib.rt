// The rule that names the members for which a quantifier failed: `C.where(not (P))` for `C.all(P)`, `C.where(P)` for `C.none(P)`.
#![tactic(auto)]

ghost use Rattle.std.specs.Prelude.{◌≡◌, ◌+◌, get_or};
ghost use Rattle.texts.specs.Append.{Wrote};
ghost use Rattle.witness.specs.Witness.{is_call, last_call, args_text, by_word, witness_text};

use predicate::{node, rows};
use syntax::kind::Kind;
use syntax::text;
use texts::Writer;

// The level of a pipeline's calls.
const CALL_LEVEL: u32 = 2;

// Appends the rule for the last call of the tree's pipeline; nothing where that is neither `all` nor `none`, or where there is none.
pub fn write_witness(rule: &[u8], tree: &[u32], out: &mut Writer<'_>)
    ensures { Wrote (witness_text rule.now tree.now) out.old out.new }
{
    let Some(call) = last_call(tree) else {
        return;
    };
    let before = text::part(rule, 0, number_at(tree, call, 2) as usize);
    let args = args_text(rule, tree, call);
    write_by_word(node::ident(rule, tree, call), before, args, out);
}

// The text, by the last call's word.
fn write_by_word(word: &[u8], before: &[u8], args: &[u8], out: &mut Writer<'_>)
    ensures { Wrote (by_word word.now before.now args.now) out.old out.new }
{
    if word == b"all".as_slice() {
        out.append(before);
        out.append(b".where(not ");
        out.append(args);
        out.append(b")");
    } else if word == b"none".as_slice() {
        out.append(before);
        out.append(b".where");
        out.append(args);
    }
}

// The place of the last DOT_CALL of the pipeline.
fn last_call(tree: &[u32]) -> Option<usize>
    ensures { result ≡ last_call tree.now }
{
    for i in (0..tree.len() / rows::ROW).rev() {
        let at = rows::ROW * i;
        if is_call(tree, at) {
            return Some(at);
        }
    }
    None
}

// Whether the row at a place is a call of the pipeline.
fn is_call(tree: &[u32], at: usize) -> bool
    ensures { result ≡ is_call tree.now at }
{
    rows::level_at(tree, at) == CALL_LEVEL && matches!(rows::kind_at(tree, at), Ok(Kind::DotCall))
}

// What stands behind the method of the call whose row is at a place.
fn args_text<'a>(rule: &'a [u8], tree: &[u32], call: usize) -> &'a [u8]
    ensures { result.now ≡ args_text rule.now tree.now call }
{
    match node::child_of_kind(tree, call, Kind::CallArgs.into()) {
        Some(at) => text::part(
            rule,
            number_at(tree, at, 2) as usize,
            number_at(tree, at, 3) as usize,
        ),
        None => b"",
    }
}

// A number of the row at a place; 0 where the table does not have it, as the definition has it for any table.
fn number_at(tree: &[u32], at: usize, number: usize) -> u32
    ensures { result ≡ get_or tree.now (at + number) 0 }
{
    tree.get(at..)
        .and_then(|row| row.get(number))
        .copied()
        .unwrap_or(0)
}
