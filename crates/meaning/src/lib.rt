// What a rule means: definitions in specs/ and laws in proofs/. Of code there are only the types that the definitions share with it.
#![tactic(auto)]

// The seven calls.
#[derive(Clone, Copy, PartialEq, Eq, Debug)]
pub enum Method {
    Where,
    All,
    Any,
    None,
    Count,
    Features,
    Diagnostics,
}

// The kinds of value that a call can follow, in the order of the columns of "What each call gives"; the last two are its `other`.
#[derive(Clone, Copy, PartialEq, Eq, Debug)]
pub enum ValueKind {
    Components,
    Features,
    Diagnostics,
    Boolean,
    Count,
}
