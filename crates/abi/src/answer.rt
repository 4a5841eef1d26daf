// The eight numbers of an answer, written at the front of a lent table: what a rule comes to, its amount, whether it is warned, the
// verdict; then whether numbers of rows are given, and those of token, tree and error rows.
ghost use Rattle.std.specs.Prelude.{◌≡◌, ◌++◌, ◌≤◌, length};
ghost use Rattle.board.specs.Check.{MAX_IMAGE};
ghost use Rattle.syntax.specs.Table.{with_rows};
ghost use Rattle.calls.specs.Numbers.{value_amount, outcome_amount};
ghost use Rattle.abi.specs.Numbers.{value_numbers, outcome_numbers, reading_numbers, row_numbers, RowsFew};
ghost use Rattle.abi.specs.Numbers as meant;

use calls::value::{Outcome, Value, Verdict};
use trees::Reading;

// The numbers of an answer.
pub(crate) const ANSWER: usize = 8;

// Those of each of its two parts.
const PART: usize = 4;

// What a reading that is not refused comes to: the number that the header for C has.
const READ: u32 = 6;

// The first part of a run's answer: the outcome and the verdict.
pub(crate) fn outcome_numbers(outcome: Outcome, verdict: Verdict) -> [u32; PART]
    requires { outcome_amount outcome ≤ MAX_IMAGE }
    ensures { result ≡ outcome_numbers outcome verdict }
{
    let last = u32::from(verdict);
    match outcome {
        Ok(value) => value_numbers(value, last),
        Err(r) => [0, u32::from(r), 0, last],
    }
}

// That of a value, with the number of the verdict.
fn value_numbers(value: Value, last: u32) -> [u32; PART]
    requires { value_amount value ≤ MAX_IMAGE }
    ensures { result ≡ value_numbers value last }
{
    match value {
        Value::Components(n) => [1, n as u32, 0, last],
        Value::Features(n) => [2, n as u32, 0, last],
        Value::Diagnostics(n) => [3, n as u32, 0, last],
        Value::Bool(holds) => [4, u32::from(holds), 0, last],
        Value::BoolWithWarning(holds) => [4, u32::from(holds), 1, last],
        Value::Count(n) => [5, n as u32, 0, last],
    }
}

// The first part of a reading's answer: that the rule was read, or the refusal.
pub(crate) fn reading_numbers(reading: Reading) -> [u32; PART]
    ensures { result ≡ reading_numbers reading }
{
    match reading {
        Ok(_) => [READ, 0, 0, u32::from(Verdict::Open)],
        Err(r) => [0, u32::from(r), 0, u32::from(Verdict::Refused)],
    }
}

// The second part of either: the numbers of rows; 0 where nothing was read.
pub(crate) fn row_numbers(reading: Reading) -> [u32; PART]
    requires { RowsFew reading }
    ensures { result ≡ row_numbers reading }
{
    match reading {
        Ok(rows) => [1, rows.tokens as u32, rows.tree as u32, rows.errors as u32],
        Err(_) => [0; PART],
    }
}

// Writes the two parts at the front of an answer.
#[tactic(auto, using(crate::proofs::AnswerLaws::parts_written))]
pub(crate) fn write(answer: &mut [u32], first: [u32; PART], second: [u32; PART])
    requires { meant.ANSWER ≤ length answer.old }
    ensures { answer.new ≡ with_rows (first ++ second) answer.old }
{
    answer[..PART].copy_from_slice(&first);
    answer[PART..ANSWER].copy_from_slice(&second);
}
