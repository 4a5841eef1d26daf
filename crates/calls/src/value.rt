// What a rule comes to, and the verdict on it.
ghost use Rattle.std.specs.Prelude.{◌≡◌};
ghost use Rattle.calls.specs.Numbers.{verdict_number};

use syntax::refusal::Refusal;

// A collection by the number of its members, which stand in the collection table; a boolean, or one that is warned because it is said
// of an empty collection; or a count.
#[derive(Clone, Copy, PartialEq, Eq, Debug)]
pub enum Value {
    Components(usize),
    Features(usize),
    Diagnostics(usize),
    Bool(bool),
    BoolWithWarning(bool),
    Count(usize),
}

// What running a rule gives: a value, or a refusal.
pub type Outcome = Result<Value, Refusal>;

// What an outcome says of a board, with the number by which it is known. Open: neither true nor false.
#[derive(Clone, Copy, PartialEq, Eq, Debug)]
pub enum Verdict {
    Pass = 0,
    Fail = 1,
    Refused = 2,
    Open = 3,
}

impl From<Verdict> for u32 {
    ghost from_gives = { λ verdict n. n ≡ verdict_number verdict };

    fn from(verdict: Verdict) -> u32 {
        verdict as u32
    }
}
