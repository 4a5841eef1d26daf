// `eval_count_compare`: the integer of a comparison, and its operator.
ghost use Rattle.std.specs.Prelude.{◌≡◌};
ghost use Rattle.meaning.specs.Compare.{operator_holds};
ghost use Rattle.calls.specs.Integer.{integer_for, digit_of};

use syntax::kind::Kind;

const BASE: u64 = 10;

// The number that digits write, or none where it is too large: the pass ends there, as no later digit makes it smaller.
pub fn integer(digits: &[u8]) -> Option<u64>
    ensures { result ≡ integer_for digits.now }
{
    let mut n: u64 = 0;
    for b in digits {
        n = n.checked_mul(BASE)?.checked_add(digit_of(*b))?;
    }
    Some(n)
}

// What a byte counts as a digit: one below `0` counts as 0.
fn digit_of(b: u8) -> u64
    ensures { result ≡ digit_of b }
{
    u64::from(b.saturating_sub(b'0'))
}

// Whether a comparison holds, by the number of its operator's kind; one that is none of the first five is `!=`.
#[tactic(auto, unfolding(meaning::specs::Compare::operator_holds))]
pub fn compares(operator: u32, left: u64, right: u64) -> bool
    ensures { result ≡ operator_holds operator left right }
{
    match Kind::try_from(operator) {
        Ok(Kind::Ge) => left >= right,
        Ok(Kind::Gt) => left > right,
        Ok(Kind::Le) => left <= right,
        Ok(Kind::Lt) => left < right,
        Ok(Kind::EqEq) => left == right,
        _ => left != right,
    }
}
