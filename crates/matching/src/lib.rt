// eval.rs, "Matching helpers": the words that a rule has for a field's values, and a text searched for in another.
#![tactic(auto)]

pub mod search;
pub mod value;

ghost use Rattle.std.specs.Prelude.{◌≡◌, [], ◌∷◌, get_or};
ghost use Rattle.matching.specs.Words.{fold, folded, one_of, category_matches, feature_kind_matches, direction_matches, severity_matches, category_number, feature_kind_number, direction_number, severity_number, category_words, feature_kind_words, direction_words, severity_words};

use syntax::text;
use value::{ComponentCategory, Direction, FeatureKind, FieldValue, Severity};

// Whether a category, by its number on the board, is the one that a word typed in a rule means.
#[tactic(auto, unfolding(crate::specs::Words::category_matches))]
pub fn category_matches(category: u32, value: &[u8]) -> bool
    ensures { result ≡ category_matches category value.now }
{
    matches::<ComponentCategory>(category, value)
}

// The same of a feature's kind.
#[tactic(auto, unfolding(crate::specs::Words::feature_kind_matches))]
pub fn feature_kind_matches(kind: u32, value: &[u8]) -> bool
    ensures { result ≡ feature_kind_matches kind value.now }
{
    matches::<FeatureKind>(kind, value)
}

// The same of a feature's direction.
#[tactic(auto, unfolding(crate::specs::Words::direction_matches))]
pub fn direction_matches(direction: u32, value: &[u8]) -> bool
    ensures { result ≡ direction_matches direction value.now }
{
    matches::<Direction>(direction, value)
}

// The same of a diagnostic's severity, which is compared as typed.
#[tactic(auto, unfolding(crate::specs::Words::severity_matches))]
pub fn severity_matches(severity: u32, value: &[u8]) -> bool
    ensures { result ≡ severity_matches severity value.now }
{
    matches::<Severity>(severity, value)
}

// Whether a field's value, by its number on the board, is the one that a word typed in a rule means.
#[tactic(auto, using(crate::proofs::WordLaws::no_word))]
fn matches<F: FieldValue>(number: u32, value: &[u8]) -> bool
    ensures { result ≡ one_of (F.compared value.now) (get_or F.words number []) }
{
    match F::try_from(number) {
        Ok(field) => field.is_meant_by(value),
        Err(_) => false,
    }
}

impl FieldValue for ComponentCategory {
    ghost number = { category_number };

    ghost words = { category_words };

    ghost compared = { folded };

    ghost numbered = { λ n r k. k };

    #[tactic(auto, unfolding(crate::specs::Words::category_words))]
    fn is_meant_by(self, value: &[u8]) -> bool {
        match self {
            ComponentCategory::System => is_word(value, b"system"),
            ComponentCategory::Process => is_word(value, b"process"),
            ComponentCategory::Thread => is_word(value, b"thread"),
            ComponentCategory::ThreadGroup => is_either(value, b"thread_group", b"threadgroup"),
            ComponentCategory::Processor => is_word(value, b"processor"),
            ComponentCategory::VirtualProcessor => is_either(
                value,
                b"virtual_processor",
                b"virtualprocessor",
            ),
            ComponentCategory::Memory => is_word(value, b"memory"),
            ComponentCategory::Bus => is_word(value, b"bus"),
            ComponentCategory::VirtualBus => is_either(value, b"virtual_bus", b"virtualbus"),
            ComponentCategory::Device => is_word(value, b"device"),
            ComponentCategory::Subprogram => is_word(value, b"subprogram"),
            ComponentCategory::SubprogramGroup => is_either(
                value,
                b"subprogram_group",
                b"subprogramgroup",
            ),
            ComponentCategory::Data => is_word(value, b"data"),
            ComponentCategory::Abstract => is_word(value, b"abstract"),
        }
    }
}

impl FieldValue for FeatureKind {
    ghost number = { feature_kind_number };

    ghost words = { feature_kind_words };

    ghost compared = { folded };

    ghost numbered = { λ n r k. k };

    #[tactic(auto, unfolding(crate::specs::Words::feature_kind_words))]
    fn is_meant_by(self, value: &[u8]) -> bool {
        match self {
            FeatureKind::DataPort => is_either(value, b"data_port", b"dataport"),
            FeatureKind::EventPort => is_either(value, b"event_port", b"eventport"),
            FeatureKind::EventDataPort => is_either(value, b"event_data_port", b"eventdataport"),
            FeatureKind::Parameter => is_word(value, b"parameter"),
            FeatureKind::DataAccess => is_either(value, b"data_access", b"dataaccess"),
            FeatureKind::BusAccess => is_either(value, b"bus_access", b"busaccess"),
            FeatureKind::SubprogramAccess => is_either(
                value,
                b"subprogram_access",
                b"subprogramaccess",
            ),
            FeatureKind::SubprogramGroupAccess => is_either(
                value,
                b"subprogram_group_access",
                b"subprogramgroupaccess",
            ),
            FeatureKind::FeatureGroup => is_either(value, b"feature_group", b"featuregroup"),
            FeatureKind::AbstractFeature => is_either(
                value,
                b"abstract_feature",
                b"abstractfeature",
            ),
        }
    }
}

impl FieldValue for Direction {
    ghost number = { direction_number };

    ghost words = { direction_words };

    ghost compared = { folded };

    ghost numbered = { λ n r k. k };

    #[tactic(auto, unfolding(crate::specs::Words::direction_words))]
    fn is_meant_by(self, value: &[u8]) -> bool {
        match self {
            Direction::None => is_word(value, b"none"),
            Direction::In => is_word(value, b"in"),
            Direction::Out => is_word(value, b"out"),
            Direction::InOut => is_either(value, b"in_out", b"inout"),
        }
    }
}

impl FieldValue for Severity {
    ghost number = { severity_number };

    ghost words = { severity_words };

    ghost compared = { λ value. value };

    ghost numbered = { λ n r k. k };

    #[tactic(auto, using(crate::proofs::WordLaws::one_word), unfolding(crate::specs::Words::severity_words))]
    fn is_meant_by(self, value: &[u8]) -> bool {
        match self {
            Severity::Error => text::same(value, b"error"),
            Severity::Warning => text::same(value, b"warning"),
            Severity::Info => text::same(value, b"info"),
        }
    }
}

// Whether a value, folded, is one of two words.
fn is_either(value: &[u8], word: &[u8], other: &[u8]) -> bool
    ensures { result ≡ one_of (folded value.now) (word.now ∷ other.now ∷ []) }
{
    is_word(value, word) || is_word(value, other)
}

// Whether a value, folded, is a word.
fn is_word(value: &[u8], word: &[u8]) -> bool
    ensures { result ≡ one_of (folded value.now) (word.now ∷ []) }
{
    value.len() == word.len() && value.iter().zip(word).all(|(b, w)| fold(*b) == *w)
}

// A letter lowered, a dash as an underscore.
#[tactic(auto, unfolding(crate::specs::Words::fold))]
fn fold(b: u8) -> u8
    ensures { result ≡ fold b }
{
    match b {
        b'-' => b'_',
        _ => b.to_ascii_lowercase(),
    }
}
