// UTF-8: whether bytes are a well-formed text. Most texts are ASCII alone, which one quick pass tells; any other is read by the library.
ghost use Rattle.std.specs.Prelude.{◌≡◌, max};
ghost use Rattle.std.specs.List.{fold};
ghost use Rattle.syntax.specs.Utf8.{utf8, is_ascii};

// Whether the bytes are UTF-8.
#[tactic(auto, using(crate::proofs::Utf8Laws::ascii_utf8))]
pub fn is_utf8(s: &[u8]) -> bool
    ensures { result ≡ utf8 s.now }
{
    is_ascii(s) || is_well_formed(s)
}

// Whether the bytes are ASCII alone. All are looked at in any case, so that the compiler takes many at once.
#[tactic(auto, using(crate::proofs::Utf8Laws::highest_ascii))]
pub fn is_ascii(s: &[u8]) -> bool
    ensures { result ≡ is_ascii s.now }
{
    highest(s) < 0x80
}

fn highest(s: &[u8]) -> u8
    ensures { result ≡ fold max 0 s.now }
{
    s.iter().fold(0, |highest: u8, b| highest.max(*b))
}

// The same, character by character. The library's words for UTF-8 and Table 3-7 agree, by `library_agrees`. It is not inlined, so that the
// quick pass has fewer registers to save.
#[inline(never)]
#[tactic(auto, using(crate::proofs::LibraryLaws::library_agrees))]
fn is_well_formed(s: &[u8]) -> bool
    ensures { result ≡ utf8 s.now }
{
    std::str::from_utf8(s).is_ok()
}
