// The calls of a pipeline made ready for members: the method, and the place of its CALL_ARGS in the tree table. Whether each call may
// stand where it stands is settled here, from the kinds alone.
ghost use Rattle.std.specs.Prelude.{◌≡◌, ◌+◌, ◌≤◌, length};
ghost use Rattle.predicate.specs.Rows.{level_at, kind_at, forest_from, children_at, row_passes, of_kind};
ghost use Rattle.syntax.specs.Kind.{DOT_CALL};
ghost use Rattle.meaning.specs.Value.{sort_kind};
ghost use Rattle.meaning.specs.Pipeline.{calls_of};
ghost use Rattle.meaning.specs.Walk.{is_last};
ghost use Rattle.eval.specs.Ready.{CallAt, KindAfter, first_last, source_sort, args_place, call_row, Holds, Plans};

use calls::{method, table};
use meaning::{Method, ValueKind};
use predicate::{node, rows};
use syntax::kind::Kind;
use syntax::refusal::Refusal;

// A call by its method, and the place of its CALL_ARGS in the tree table.
#[derive(Clone, Copy)]
pub(crate) struct Call {
    pub method: Method,
    pub args: usize,
}

// The i-th call, if there are so many.
pub(crate) fn nth(calls: &[Call], i: usize) -> Option<Call>
    ensures { CallAt calls.now i result }
{
    calls.get(i).copied()
}

// What is known of a pipeline before any member is looked at: the place of its source's row, the number of its calls and the kind that they
// come to.
#[derive(Clone, Copy)]
pub(crate) struct Plan {
    pub source: usize,
    pub calls: usize,
    pub kind: ValueKind,
}

// Makes the calls of the pipeline whose row is at a place ready, in `calls`; or refuses it.
pub(crate) fn plan_pipeline(
    rule: &[u8],
    tree: &[u32],
    at: usize,
    calls: &mut [Call],
) -> Result<Plan, Refusal>
    requires { length (calls_of (children_at rule.now tree.now at)) ≤ length calls.old }
    ensures { Plans rule.now tree.now at calls.new result }
{
    let Some(source) = node::first_child(tree, at) else {
        return Err(Refusal::ParseErrors);
    };
    let count = put_calls(rule, tree, at, source, calls);
    let kind = kind_after(&calls[..count], source_kind(tree, source))?;
    Ok(Plan {
        source,
        calls: count,
        kind,
    })
}

// The kind of what a source gives.
fn source_kind(tree: &[u32], source: usize) -> ValueKind
    ensures { result ≡ sort_kind (source_sort (kind_at tree.now source)) }
{
    match rows::kind_at(tree, source) {
        Ok(Kind::IdentExpr) => ValueKind::Components,
        _ => ValueKind::Diagnostics,
    }
}

// Writes each call of the pipeline whose row is at a place, from its source's row on, and gives their number.
fn put_calls(rule: &[u8], tree: &[u32], at: usize, source: usize, calls: &mut [Call]) -> usize
    requires { length (calls_of (forest_from rule.now tree.now (level_at tree.now at + 1) source)) ≤ length calls.old }
    ensures { Holds rule.now tree.now (calls_of (forest_from rule.now tree.now (level_at tree.now at + 1) source)) calls.new result }
{
    let level = rows::level_at(tree, at) as usize;
    let mut row = source;
    let mut count = 0;
    // A `while` over places: numbers of rows would have to be made places again.
    while rows::is_below(tree, level, row) {
        if is_call(tree, level + 1, row) {
            calls[count] = call_at(rule, tree, row);
            count += 1;
        }
        row += rows::ROW;
    }
    count
}

// Whether the row at a place is that of a DOT_CALL at a level.
#[tactic(auto, unfolding(predicate::specs::Rows::row_passes))]
fn is_call(tree: &[u32], level: usize, row: usize) -> bool
    ensures { result ≡ row_passes (of_kind DOT_CALL) tree.now level row }
{
    matches!(rows::kind_at(tree, row), Ok(Kind::DotCall))
        && rows::level_at(tree, row) as usize == level
}

// The call whose DOT_CALL has its row at a place.
fn call_at(rule: &[u8], tree: &[u32], row: usize) -> Call
    ensures { result ≡ call_row rule.now tree.now row }
{
    Call {
        method: method::method_of(node::ident(rule, tree, row)),
        args: args_place(tree, row),
    }
}

// The place of the CALL_ARGS of the DOT_CALL whose row is at a place; where there is none, past all rows. An `Option` would make `Call`
// half as large again.
fn args_place(tree: &[u32], row: usize) -> usize
    ensures { result ≡ args_place tree.now row }
{
    node::child_of_kind(tree, row, Kind::CallArgs.into()).unwrap_or(tree.len())
}

// The kind after all calls, or the refusal of the leftmost that may not stand where it stands.
pub(crate) fn kind_after(calls: &[Call], source: ValueKind) -> Result<ValueKind, Refusal>
    ensures { KindAfter calls.now source result }
{
    let mut kind = source;
    for call in calls {
        kind = table::next_kind(call.method, kind)?;
    }
    Ok(kind)
}

// The method of the first call that gives no collection; where there is none, `where`, as the definition has it.
pub(crate) fn last_method(calls: &[Call]) -> Method
    ensures { result ≡ first_last calls.now }
{
    calls
        .iter()
        .find(|call| is_last(call.method))
        .map_or(Method::Where, |call| call.method)
}

// Whether a call of this method gives no collection.
fn is_last(method: Method) -> bool
    ensures { result ≡ is_last method }
{
    match method {
        Method::All | Method::Any | Method::None | Method::Count => true,
        Method::Where | Method::Features | Method::Diagnostics => false,
    }
}
