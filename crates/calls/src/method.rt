// The calls by their words.
ghost use Rattle.std.specs.Prelude.{◌≡◌};
ghost use Rattle.meaning.specs.Pipeline.{method_of};

use meaning::Method;
use syntax::text;

/// The call that a word names. In a rule without parse errors a method is one of the seven; here any other word counts as the last.
#[tactic(auto, unfolding(meaning::specs::Pipeline::method_of))]
pub fn method_of(word: &[u8]) -> Method
    ensures { result ≡ method_of word.now }
{
    if text::same(word, b"where") {
        Method::Where
    } else if text::same(word, b"all") {
        Method::All
    } else if text::same(word, b"any") {
        Method::Any
    } else if text::same(word, b"none") {
        Method::None
    } else if text::same(word, b"count") {
        Method::Count
    } else if text::same(word, b"features") {
        Method::Features
    } else {
        Method::Diagnostics
    }
}
