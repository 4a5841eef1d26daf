// The refusals, in the order in which they are checked.
ghost use Rattle.std.specs.Prelude.{◌≡◌};
ghost use Rattle.syntax.specs.Refusal.{refusal_number};

// Why a rule, its tables or a board image is turned away, with the number by which it is known.
#[derive(Clone, Copy, PartialEq, Eq, Debug)]
pub enum Refusal {
    RuleTooLong = 1,
    RuleNotUtf8 = 2,
    TableTooShort = 3,
    TooManyOpeners = 4,
    ImageBadSections = 5,
    ImageBadStrings = 6,
    ImageBadRecords = 7,
    CollectionTooShort = 8,
    ParseErrors = 9,
    WhereOnNoCollection = 10,
    QuantifierOnNoCollection = 11,
    CountOnNoCollection = 12,
    FeaturesOnNoComponents = 13,
    DiagnosticsOnNoDiagnostics = 14,
    ComparisonNotCountable = 15,
    IntegerTooLarge = 16,
}

impl From<Refusal> for u32 {
    ghost from_gives = { λ refusal n. n ≡ refusal_number refusal };

    fn from(refusal: Refusal) -> u32 {
        refusal as u32
    }
}
