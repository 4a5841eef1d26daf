// The values of the fields that a board has as numbers, from 0 on in the order of the numbers.
ghost use Rattle.std.specs.Prelude.{◌≡◌, ℕ, List, [], get_or, Result};
ghost use Rattle.matching.specs.declared.value.UnknownNumber.{UnknownNumber};
ghost use Rattle.matching.specs.Words.{Numbered, one_of, category_number, category_words, feature_kind_number, feature_kind_words, direction_number, direction_words, severity_number, severity_words};

// A number that no value of the field has.
#[derive(Clone, Copy, PartialEq, Eq)]
pub struct UnknownNumber(pub u32);

// A field's value, which a board has as a number and a rule as a word.
pub(crate) trait FieldValue: TryFrom<u32, Error = UnknownNumber> {
    ghost number: { Self → ℕ };

    // The words for each number.
    ghost words: { List (List (List ℕ)) };

    // The text that is compared with them: what was typed, folded or as it is.
    ghost compared: { List ℕ → List ℕ };

    // Whether the word is one for this value.
    fn is_meant_by(self, value: &[u8]) -> bool
        ensures { result ≡ one_of (compared value.now) (get_or words (number self) []) };

    // A value is the one that has its number, and a number that no value has, has no words.
    ghost numbered: { (n : ℕ) (r : Result Self UnknownNumber) → Self.try_from_gives n r → Numbered number words n r };
}

// What a component is.
#[derive(Clone, Copy, PartialEq, Eq)]
pub(crate) enum ComponentCategory {
    System,
    Process,
    Thread,
    ThreadGroup,
    Processor,
    VirtualProcessor,
    Memory,
    Bus,
    VirtualBus,
    Device,
    Subprogram,
    SubprogramGroup,
    Data,
    Abstract,
}

impl TryFrom<u32> for ComponentCategory {
    type Error = UnknownNumber;

    ghost try_from_gives = { Numbered category_number category_words };

    #[tactic(auto, unfolding(crate::specs::Words::category_words))]
    fn try_from(number: u32) -> Result<Self, UnknownNumber> {
        match number {
            0 => Ok(Self::System),
            1 => Ok(Self::Process),
            2 => Ok(Self::Thread),
            3 => Ok(Self::ThreadGroup),
            4 => Ok(Self::Processor),
            5 => Ok(Self::VirtualProcessor),
            6 => Ok(Self::Memory),
            7 => Ok(Self::Bus),
            8 => Ok(Self::VirtualBus),
            9 => Ok(Self::Device),
            10 => Ok(Self::Subprogram),
            11 => Ok(Self::SubprogramGroup),
            12 => Ok(Self::Data),
            13 => Ok(Self::Abstract),
            _ => Err(UnknownNumber(number)),
        }
    }
}

// What a feature is.
#[derive(Clone, Copy, PartialEq, Eq)]
pub(crate) enum FeatureKind {
    DataPort,
    EventPort,
    EventDataPort,
    Parameter,
    DataAccess,
    BusAccess,
    SubprogramAccess,
    SubprogramGroupAccess,
    FeatureGroup,
    AbstractFeature,
}

impl TryFrom<u32> for FeatureKind {
    type Error = UnknownNumber;

    ghost try_from_gives = { Numbered feature_kind_number feature_kind_words };

    #[tactic(auto, unfolding(crate::specs::Words::feature_kind_words))]
    fn try_from(number: u32) -> Result<Self, UnknownNumber> {
        match number {
            0 => Ok(Self::DataPort),
            1 => Ok(Self::EventPort),
            2 => Ok(Self::EventDataPort),
            3 => Ok(Self::Parameter),
            4 => Ok(Self::DataAccess),
            5 => Ok(Self::BusAccess),
            6 => Ok(Self::SubprogramAccess),
            7 => Ok(Self::SubprogramGroupAccess),
            8 => Ok(Self::FeatureGroup),
            9 => Ok(Self::AbstractFeature),
            _ => Err(UnknownNumber(number)),
        }
    }
}

// Which way a feature goes, if any.
#[derive(Clone, Copy, PartialEq, Eq)]
pub enum Direction {
    None,
    In,
    Out,
    InOut,
}

impl TryFrom<u32> for Direction {
    type Error = UnknownNumber;

    ghost try_from_gives = { Numbered direction_number direction_words };

    #[tactic(auto, unfolding(crate::specs::Words::direction_words))]
    fn try_from(number: u32) -> Result<Self, UnknownNumber> {
        match number {
            0 => Ok(Self::None),
            1 => Ok(Self::In),
            2 => Ok(Self::Out),
            3 => Ok(Self::InOut),
            _ => Err(UnknownNumber(number)),
        }
    }
}

// How grave a diagnostic is.
#[derive(Clone, Copy, PartialEq, Eq)]
pub(crate) enum Severity {
    Error,
    Warning,
    Info,
}

impl TryFrom<u32> for Severity {
    type Error = UnknownNumber;

    ghost try_from_gives = { Numbered severity_number severity_words };

    #[tactic(auto, unfolding(crate::specs::Words::severity_words))]
    fn try_from(number: u32) -> Result<Self, UnknownNumber> {
        match number {
            0 => Ok(Self::Error),
            1 => Ok(Self::Warning),
            2 => Ok(Self::Info),
            _ => Err(UnknownNumber(number)),
        }
    }
}
