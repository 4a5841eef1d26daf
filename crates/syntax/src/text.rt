// Texts as slices of bytes.
ghost use Rattle.std.specs.Prelude.{◌≡◌};
ghost use Rattle.syntax.specs.Text.{same, bytes_between};

// Whether two texts have the same bytes. It goes by their lengths and byte by byte, in its caller, as most callers have a short word at
// hand; `==` calls a function that is made for long texts.
#[inline(always)]
pub fn same(a: &[u8], b: &[u8]) -> bool
    ensures { result ≡ same a.now b.now }
{
    a.len() == b.len() && a.iter().zip(b).all(|(x, y)| *x == *y)
}

// The bytes of a text from one place to another, as far as the text goes.
pub fn part(text: &[u8], first: usize, end: usize) -> &[u8]
    ensures { result.now ≡ bytes_between text.now first end }
{
    let last = end.min(text.len());
    &text[first.min(last)..last]
}
