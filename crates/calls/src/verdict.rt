// The verdict on what a rule comes to.
ghost use Rattle.std.specs.Prelude.{◌≡◌};
ghost use Rattle.calls.specs.Answer.{verdict_of_answer};

use crate::value::{Outcome, Value, Verdict};

// The verdict on an outcome.
pub fn verdict(outcome: Outcome) -> Verdict
    ensures { result ≡ verdict_of_answer outcome }
{
    match outcome {
        Ok(Value::Bool(true) | Value::BoolWithWarning(true)) => Verdict::Pass,
        Ok(Value::Bool(false) | Value::BoolWithWarning(false)) => Verdict::Fail,
        Ok(_) => Verdict::Open,
        Err(_) => Verdict::Refused,
    }
}
