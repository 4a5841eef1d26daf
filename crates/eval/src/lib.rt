// eval.rs and the frame around it: a rule run on a board image. Refusals 1 to 8 come first and alter no table; then the rule is read; then
// refusals 9 to 16 are settled, and only then the collection table is written.
#![tactic(auto)]

mod context;
mod found;
mod held;
mod listed;
mod marked;
mod memo;
mod pipeline;
mod ready;
mod source;
mod step;
mod walk;

ghost use Rattle.std.specs.Prelude.{◌≡◌, Ok};
ghost use Rattle.meaning.specs.Outcome.{outcome, check_run};
ghost use Rattle.eval.specs.Pipeline.{Lent, Evaluates};
ghost use Rattle.eval.specs.Run.{lent, Answers, Runs, ReadRule};

use calls::value::{Outcome, Verdict};
use calls::verdict;
use lexer::limits::TREE_ROW;
use syntax::refusal::Refusal;
use trees::{Reading, Rows};

// What running a rule gives: its outcome, the verdict on it, and, once refusals 1 to 8 are passed, the numbers of token, tree and error
// rows; before that `reading` has the refusal.
#[derive(Clone, Copy)]
pub struct Answer {
    pub outcome: Outcome,
    pub verdict: Verdict,
    pub reading: Reading,
}

// Runs any rule on any image, with any four tables: plain slices, as C lends them.
pub fn run(
    rule: &[u8],
    image: &[u8],
    tokens: &mut [u32],
    tree: &mut [u32],
    errors: &mut [u32],
    collection: &mut [u32],
) -> Answer
    ensures { Runs rule.now image.now tokens.old tokens.new tree.old tree.new errors.old errors.new collection.old collection.new result }
{
    match lexer::check_rule(rule, tokens.len(), tree.len(), errors.len()) {
        Err(r) => with_verdict(Err(r), Err(r)),
        Ok(()) => match board::check_image(image, collection.len()) {
            Err(r) => with_verdict(Err(r), Err(r)),
            Ok(()) => run_checked(rule, image, tokens, tree, errors, collection),
        },
    }
}

// An outcome with its verdict.
fn with_verdict(outcome: Outcome, reading: Reading) -> Answer
    ensures { Answers outcome reading result }
{
    Answer {
        outcome,
        verdict: verdict::verdict(outcome),
        reading,
    }
}

// Runs a rule that passes refusals 1 to 8: reads it, and goes on with the rows of its tree.
fn run_checked(
    rule: &[u8],
    image: &[u8],
    tokens: &mut [u32],
    tree: &mut [u32],
    errors: &mut [u32],
    collection: &mut [u32],
) -> Answer
    requires { check_run rule.now image.now (lent tokens.old tree.old errors.old collection.old) ≡ Ok tt }
    ensures { Runs rule.now image.now tokens.old tokens.new tree.old tree.new errors.old errors.new collection.old collection.new result }
{
    match parser::parse_rule(rule, tokens, tree, errors) {
        Err(r) => with_verdict(Err(r), Err(r)),
        Ok(rows) => {
            let outcome = run_read(rule, image, tree, rows, collection);
            with_verdict(outcome, Ok(rows))
        }
    }
}

// The outcome of a rule that was read: 9 where it has parse errors, else what its tree comes to.
fn run_read(rule: &[u8], image: &[u8], tree: &[u32], rows: Rows, collection: &mut [u32]) -> Outcome
    requires { ReadRule rule.now tree.now rows × Lent image.now collection.old }
    ensures { Evaluates (outcome image.now rule.now) collection.old collection.new result }
{
    if rows.errors != 0 {
        return Err(Refusal::ParseErrors);
    }
    let end = TREE_ROW * rows.tree;
    pipeline::eval_node(rule, image, &tree[..end], collection)
}
