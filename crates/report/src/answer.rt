// The first two lines, the verdict and what the rule comes to; and the status by which a program tells the verdict.
ghost use Rattle.std.specs.Prelude.{◌≡◌};
ghost use Rattle.std.specs.Process.{exit_status};
ghost use Rattle.calls.specs.Numbers.{verdict_number};
ghost use Rattle.texts.specs.Append.{Wrote};
ghost use Rattle.report.specs.Answer.{head_text, verdict_text, outcome_text, reason_text, refusal_text, value_text, truth_text, counted};

use calls::value::{Outcome, Value, Verdict};
use calls::verdict;
use std::process::ExitCode;
use syntax::refusal::Refusal;
use texts::Writer;

// The verdict on an outcome, and the outcome in words.
pub fn write_head(outcome: Outcome, out: &mut Writer<'_>)
    ensures { Wrote (head_text outcome) out.old out.new }
{
    write_verdict(verdict::verdict(outcome), out);
    out.append(b"\n");
    write_outcome(outcome, out);
    out.append(b"\n");
}

// A verdict's word.
pub fn write_verdict(verdict: Verdict, out: &mut Writer<'_>)
    ensures { Wrote (verdict_text verdict) out.old out.new }
{
    match verdict {
        Verdict::Pass => out.append(b"pass"),
        Verdict::Fail => out.append(b"fail"),
        Verdict::Refused => out.append(b"refused"),
        Verdict::Open => out.append(b"open"),
    }
}

/// The exit status by which a program tells a verdict: 0 pass, 1 fail, 2 refused, 3 open.
pub fn exit_code(verdict: Verdict) -> ExitCode
    ensures { exit_status result ≡ verdict_number verdict }
{
    ExitCode::from(verdict as u8)
}

// What a rule comes to, in words.
pub fn write_outcome(outcome: Outcome, out: &mut Writer<'_>)
    ensures { Wrote (outcome_text outcome) out.old out.new }
{
    match outcome {
        Ok(value) => write_value(value, out),
        Err(refusal) => write_refusal(refusal, out),
    }
}

// A refusal's number, and why.
fn write_refusal(refusal: Refusal, out: &mut Writer<'_>)
    ensures { Wrote (refusal_text refusal) out.old out.new }
{
    let number = u32::from(refusal);
    out.write_numbered(b"refusal ", u64::from(number), b": ");
    out.append(reason(refusal));
}

// Why a rule, a board or a table is refused.
fn reason(refusal: Refusal) -> &'static [u8]
    ensures { result.now ≡ reason_text refusal }
{
    match refusal {
        Refusal::RuleTooLong => b"the rule is longer than 500 bytes",
        Refusal::RuleNotUtf8 => b"the rule is not UTF-8 text",
        Refusal::TableTooShort =>
            b"the table for tokens, tree or errors has too few rows for the rule",
        Refusal::TooManyOpeners => b"more than 64 tokens of the rule are '(' or 'not'",
        Refusal::ImageBadSections =>
            b"the board file is not an image: its length or the list of its sections is wrong",
        Refusal::ImageBadStrings =>
            b"a string of the board file is out of place or is not UTF-8 text",
        Refusal::ImageBadRecords => b"a record of the board file has a number outside its range",
        Refusal::CollectionTooShort => b"the table for members has too few rows for the board",
        Refusal::ParseErrors => b"the rule has parse errors",
        Refusal::WhereOnNoCollection => b"'where' follows something that is not a collection",
        Refusal::QuantifierOnNoCollection =>
            b"'all', 'any' or 'none' follows something that is not a collection",
        Refusal::CountOnNoCollection => b"'count' follows something that is not a collection",
        Refusal::FeaturesOnNoComponents => b"'features' follows something other than components",
        Refusal::DiagnosticsOnNoDiagnostics =>
            b"'diagnostics' follows something other than diagnostics",
        Refusal::ComparisonNotCountable =>
            b"the left side of the comparison is neither a count nor a collection",
        Refusal::IntegerTooLarge => b"the integer is above 18446744073709551615",
    }
}

// A value in words; of a collection, how many members it has.
fn write_value(value: Value, out: &mut Writer<'_>)
    ensures { Wrote (value_text value) out.old out.new }
{
    match value {
        Value::Components(n) => write_counted(n, b" component", out),
        Value::Features(n) => write_counted(n, b" feature", out),
        Value::Diagnostics(n) => write_counted(n, b" diagnostic", out),
        Value::Bool(holds) => write_truth(holds, out),
        Value::BoolWithWarning(holds) => {
            write_truth(holds, out);
            out.append(b", of an empty collection: no member was there to be looked at");
        }
        Value::Count(n) => {
            out.append(b"count: ");
            out.write_number(n as u64);
        }
    }
}

// A number of things, with an `s` unless there is one.
fn write_counted(n: usize, thing: &[u8], out: &mut Writer<'_>)
    ensures { Wrote (counted n thing.now) out.old out.new }
{
    out.write_number(n as u64);
    out.append(thing);
    if n != 1 {
        out.append(b"s");
    }
}

// A boolean.
fn write_truth(holds: bool, out: &mut Writer<'_>)
    ensures { Wrote (truth_text holds) out.old out.new }
{
    out.append(if holds { b"true" } else { b"false" });
}
