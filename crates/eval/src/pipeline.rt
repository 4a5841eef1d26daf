// eval.rs, "Pipeline evaluation": what the tree of a rule without parse errors comes to on a board. All refusals are settled before a row
// of the collection table is written.
ghost use Rattle.std.specs.Prelude.{◌≡◌, ◌≤◌, ◌<◌, length};
ghost use Rattle.predicate.specs.Rows.{children_at};
ghost use Rattle.meaning.specs.Pipeline.{eval_pipeline};
ghost use Rattle.meaning.specs.Outcome.{eval_count_compare, eval_node};
ghost use Rattle.calls.specs.Answer.{boolean_of};
ghost use Rattle.eval.specs.Pipeline.{FewCalls, Lent, Evaluates, Counts, OperatorAt, Gives, Judges};
ghost use Rattle.eval.specs.Pipeline as meant;

use crate::context::Pipeline;
use crate::ready::{Call, Plan};
use crate::walk::Tally;
use crate::{context, ready};
use calls::compare;
use calls::value::{Outcome, Value};
use lexer::limits::MAX_RULE;
use meaning::{Method, ValueKind};
use predicate::{node, rows};
use syntax::kind::Kind;
use syntax::refusal::Refusal;

// The room for calls: a rule has two bytes for each, a dot and a method's first, and a count may stand behind them.
const CALLS: usize = MAX_RULE / 2 + 1;

// A place where no call is written yet.
const NO_CALL: Call = Call {
    method: Method::Where,
    args: 0,
};

// What evaluates the nodes of a rule's tree on a board.
#[derive(Clone, Copy)]
struct Evaluator<'a> {
    rule: &'a [u8],
    image: &'a [u8],
    tree: &'a [u32],
}

// `eval_node`: the first node in the root, a comparison or a pipeline.
pub(crate) fn eval_node(rule: &[u8], image: &[u8], tree: &[u32], collection: &mut [u32]) -> Outcome
    requires { Lent image.now collection.old × FewCalls rule.now tree.now 0 }
    ensures { Evaluates (eval_node image.now (children_at rule.now tree.now 0)) collection.old collection.new result }
{
    let Some(at) = node::first_child(tree, 0) else {
        return Err(Refusal::ParseErrors);
    };
    let evaluator = Evaluator { rule, image, tree };
    let mut calls = [NO_CALL; CALLS];
    match rows::kind_at(tree, at) {
        Ok(Kind::CountCompareExpr) => evaluator.eval_count_compare(at, &mut calls, collection),
        _ => evaluator.eval_pipeline(at, &mut calls, collection),
    }
}

impl Evaluator<'_> {
    // `eval_pipeline`, of the PIPELINE_EXPR whose row is at a place.
    fn eval_pipeline(&self, at: usize, calls: &mut [Call], collection: &mut [u32]) -> Outcome
        requires { (meant.CALLS ≤ length calls.old) × Lent self.now.image.now collection.old × FewCalls self.now.rule.now self.now.tree.now at }
        ensures { Evaluates (eval_pipeline self.now.image.now (children_at self.now.rule.now self.now.tree.now at)) collection.old collection.new result }
    {
        let plan = ready::plan_pipeline(self.rule, self.tree, at, calls)?;
        let calls = &calls[..plan.calls];
        let last = ready::last_method(calls);
        let pipeline = Pipeline {
            rule: self.rule,
            image: self.image,
            tree: self.tree,
            calls,
            last,
            first: &context::first_predicate(self.rule, self.tree, calls),
        };
        let tally = pipeline.walk(plan.source, collection);
        Ok(value(plan.kind, last, tally))
    }

    // `eval_count_compare`, of the COUNT_COMPARE_EXPR whose row is at a place: the left side is judged before the integer. Where there is
    // no operator it is as with `!=`.
    fn eval_count_compare(&self, at: usize, calls: &mut [Call], collection: &mut [u32]) -> Outcome
        requires { (meant.CALLS ≤ length calls.old) × Lent self.now.image.now collection.old × FewCalls self.now.rule.now self.now.tree.now at }
        ensures { Evaluates (eval_count_compare self.now.image.now (children_at self.now.rule.now self.now.tree.now at)) collection.old collection.new result }
    {
        let Some(pipeline) = node::first_child(self.tree, at) else {
            return Err(Refusal::ParseErrors);
        };
        let plan = ready::plan_pipeline(self.rule, self.tree, pipeline, calls)?;
        if plan.kind == ValueKind::Boolean {
            return Err(Refusal::ComparisonNotCountable);
        }
        let Some(right) = compare::integer(node::integer(self.rule, self.tree, at)) else {
            return Err(Refusal::IntegerTooLarge);
        };
        let operator = operator(self.tree, at).unwrap_or(Kind::Neq);
        let left = self.count_members(plan, calls, collection) as u64;
        Ok(Value::Bool(compare::compares(operator.into(), left, right)))
    }

    // How many members arrive by what is planned: a `count` behind the calls keeps their rows out of the collection table.
    fn count_members(&self, plan: Plan, calls: &mut [Call], collection: &mut [u32]) -> usize
        requires { (plan.calls < length calls.old) × Lent self.now.image.now collection.old }
        ensures { Counts self.now.rule.now self.now.image.now self.now.tree.now plan calls.old collection.old collection.new result }
    {
        calls[plan.calls] = Call {
            method: Method::Count,
            args: 0,
        };
        let calls = &calls[..plan.calls + 1];
        let pipeline = Pipeline {
            rule: self.rule,
            image: self.image,
            tree: self.tree,
            calls,
            last: Method::Count,
            first: &context::first_predicate(self.rule, self.tree, calls),
        };
        pipeline.walk(plan.source, collection).arrived
    }
}

// The kind of the comparison's operator, if it has one: the first of the six among the comparison's own tokens.
fn operator(tree: &[u32], at: usize) -> Option<Kind>
    ensures { OperatorAt tree.now at result }
{
    let row = node::comparison_operator(tree, at)?;
    rows::kind_at(tree, row).ok()
}

// What calls that come to a kind give, by their last call and the members that arrived.
fn value(kind: ValueKind, method: Method, tally: Tally) -> Value
    ensures { Gives kind method tally result }
{
    match kind {
        ValueKind::Components => Value::Components(tally.arrived),
        ValueKind::Features => Value::Features(tally.arrived),
        ValueKind::Diagnostics => Value::Diagnostics(tally.arrived),
        ValueKind::Boolean => judge(method, tally.arrived, tally.passed),
        ValueKind::Count => Value::Count(tally.arrived),
    }
}

// `eval_quantifier`, by two numbers: `all` and `none` of an empty collection are true, and warned.
fn judge(method: Method, arrived: usize, passed: usize) -> Value
    ensures { Judges method arrived passed result }
{
    let warned = arrived == 0;
    match method {
        Method::All => boolean(passed == arrived, warned),
        Method::Any => Value::Bool(0 < passed),
        Method::None => boolean(passed == 0, warned),
        _ => Value::Bool(false),
    }
}

// A boolean, warned or not.
fn boolean(value: bool, warned: bool) -> Value
    ensures { result ≡ boolean_of value warned }
{
    if warned {
        return Value::BoolWithWarning(value);
    }
    Value::Bool(value)
}
