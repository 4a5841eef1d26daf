// Reading a file of cases and replaying them: decimal numbers, each with a byte after it, and texts, each with its length before it and a
// byte after it.
#![tactic(auto)]

pub mod noise;

ghost use Rattle.std.specs.Prelude.{◌≡◌, ◌↔◌, ◌+◌, ◌<◌, ◌≤◌, length, take, drop, IsSome, IfSome, IfNone, MatchOption, [], Ok};
ghost use Rattle.cases.specs.File.{is_digit_of, number, past_number};
ghost use Rattle.std.specs.Iterator.{at_most};

use std::io;
use std::io::Write;
use std::marker::PhantomData;

// The number at the front of the input, and what is left past the byte that ends it. One above 9,999,999 is cut short. Its end is a byte,
// and what is left is wanted too, so that a `while` says it.
pub fn number(input: &[u8]) -> (usize, &[u8])
    ensures value { result.0 ≡ number 0 input.now }
    ensures rest { result.1.now ≡ past_number 0 input.now }
    ensures shorter { length result.1.now ≤ length input.now }
{
    let mut value = 0;
    let mut rest = input;
    while let Some((byte, after)) = rest.split_first() {
        if !is_digit_of(value, *byte) {
            return (value, after);
        }
        value = value * 10 + usize::from(*byte - b'0');
        rest = after;
    }
    (value, rest)
}

// Whether a number that has come to a value goes on with a byte.
fn is_digit_of(value: usize, byte: u8) -> bool
    ensures { result ≡ is_digit_of value byte }
{
    value <= 999_999 && byte.is_ascii_digit()
}

// So many bytes at the front of the input, and what is left past the byte after them; none where the input ends before that byte.
pub fn bytes(input: &[u8], n: usize) -> Option<(&[u8], &[u8])>
    ensures some { IsSome result ↔ (n < length input.now) }
    ensures bytes { IfSome result (λ r. r.0.now ≡ take n input.now) }
    ensures rest { IfSome result (λ r. r.1.now ≡ drop (n + 1) input.now) }
    ensures shorter { IfSome result (λ r. length r.1.now < length input.now) }
{
    if input.len() <= n {
        return None;
    }
    Some((&input[..n], &input[n + 1..]))
}

// The text at the front of the input, which has its length before it, and what is left past the byte after it.
pub fn text(input: &[u8]) -> Option<(&[u8], &[u8])>
    ensures some { IsSome result ↔ (number 0 input.now < length (past_number 0 input.now)) }
    ensures bytes { IfSome result (λ r. r.0.now ≡ take (number 0 input.now) (past_number 0 input.now)) }
    ensures rest { IfSome result (λ r. r.1.now ≡ drop (number 0 input.now + 1) (past_number 0 input.now)) }
    ensures shorter { IfSome result (λ r. length r.1.now < length input.now) }
{
    let (length, rest) = number(input);
    bytes(rest, length)
}

// A case as a program reads it.
pub trait Case<'a>: Sized {
    // The case at the front of the input, and what is left past it; none where no case begins there.
    fn read(input: &'a [u8]) -> Option<(Self, &'a [u8])>
        ensures { IfSome result (λ r. length r.1.now < length input.now) };
}

// The cases of a file, up to its end or to where no case begins; what is left then is not a case.
#[derive(Drop)]
pub struct Cases<'a, C> {
    rest: &'a [u8],
    kind: PhantomData<C>,
}

impl<'a, C: Case<'a>> Cases<'a, C> {
    pub fn new(input: &'a [u8]) -> Cases<'a, C>
        ensures { result.rest.now ≡ input.now }
    {
        Cases {
            rest: input,
            kind: PhantomData,
        }
    }
}

impl<'a, C: Case<'a>> Iterator for Cases<'a, C> {
    type Item = Option<C>;

    ghost next_gives = { λ s r t. MatchOption r (s.rest.now ≡ []) (λ case. (0 < length s.rest.now) × IfNone case (t.rest.now ≡ [])) };

    ghost remaining = { λ s. at_most (length s.rest.now) };

    fn next(&mut self) -> Option<Option<C>> {
        if self.rest.is_empty() {
            return None;
        }
        match C::read(self.rest) {
            Some((case, rest)) => {
                self.rest = rest;
                Some(Some(case))
            }
            None => {
                self.rest = &[];
                Some(None)
            }
        }
    }
}

// A case that is run by itself.
pub trait Replayed<'a>: Case<'a> + Drop {
    // Runs the case, and prints what it gives.
    fn run<W: Write>(self, out: &mut W) -> io::Result<()>;
}

// Runs the cases of a file from the first on, and stops at one that is not in the format. Of a file without bytes nothing is run or
// printed; what is printed of others is for each kind of case to say.
pub fn replay<'a, C: Replayed<'a>, W: Write>(out: &mut W, input: &'a [u8]) -> io::Result<()>
    ensures { input.now ≡ [] → (result ≡ Ok tt) × (out.new ≡ out.old) }
{
    for (i, case) in Cases::<C>::new(input).enumerate() {
        let Some(case) = case else {
            return writeln!(out, "not a case");
        };
        writeln!(out, "case {}", i + 1)?;
        case.run(out)?;
    }
    Ok(())
}
