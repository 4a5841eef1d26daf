// "What each call gives": the next kind or the refusal, by call and kind.
ghost use Rattle.std.specs.Prelude.{◌≡◌};
ghost use Rattle.meaning.specs.Calls.{gives};

use Refusal::{
    CountOnNoCollection, DiagnosticsOnNoDiagnostics, FeaturesOnNoComponents,
    QuantifierOnNoCollection, WhereOnNoCollection,
};
use ValueKind::{Boolean, Components, Count, Diagnostics, Features};
use meaning::{Method, ValueKind};
use syntax::refusal::Refusal;

type Entry = Result<ValueKind, Refusal>;

// The line of `all`, `any` and `none`: a boolean of any collection.
const QUANTIFIER: [Entry; 5] = [
    Ok(Boolean),
    Ok(Boolean),
    Ok(Boolean),
    Err(QuantifierOnNoCollection),
    Err(QuantifierOnNoCollection),
];

// A line for each call and a column for each kind, in their order.
const NEXT: [[Entry; 5]; 7] = [
    // where
    [
        Ok(Components),
        Ok(Features),
        Ok(Diagnostics),
        Err(WhereOnNoCollection),
        Err(WhereOnNoCollection),
    ],
    // all, any, none
    QUANTIFIER,
    QUANTIFIER,
    QUANTIFIER,
    // count
    [
        Ok(Count),
        Ok(Count),
        Ok(Count),
        Err(CountOnNoCollection),
        Err(CountOnNoCollection),
    ],
    // features
    [
        Ok(Features),
        Err(FeaturesOnNoComponents),
        Err(FeaturesOnNoComponents),
        Err(FeaturesOnNoComponents),
        Err(FeaturesOnNoComponents),
    ],
    // diagnostics
    [
        Err(DiagnosticsOnNoDiagnostics),
        Err(DiagnosticsOnNoDiagnostics),
        Ok(Diagnostics),
        Err(DiagnosticsOnNoDiagnostics),
        Err(DiagnosticsOnNoDiagnostics),
    ],
];

// What a call gives on a kind: its place in the table.
#[tactic(auto, unfolding(meaning::specs::Calls::gives))]
pub fn next_kind(method: Method, kind: ValueKind) -> Result<ValueKind, Refusal>
    ensures { result ≡ gives method kind }
{
    NEXT[method as usize][kind as usize]
}
