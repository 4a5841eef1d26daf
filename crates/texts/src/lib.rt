// Texts appended to a lent place, one after the other. Where the lent place ends, a text is cut.
#![tactic(auto)]

pub mod place;

ghost use Rattle.std.specs.Prelude.{◌≡◌, [], ◌∷◌, ◌++◌, ◌≤◌, length, map, min, take};
ghost use Rattle.texts.specs.Items.{item, item_of};
ghost use Rattle.texts.specs.Text.{number_text, shown_byte, shown};

// A lent place of bytes, and the number of them that are written.
#[derive(Drop)]
pub struct Writer<'a> {
    out: &'a mut [u8],
    at: usize,
    ghost within: { at ≤ length out.now },
}

impl<'a> Writer<'a> {
    ghost use Rattle.texts.specs.Append.{Wrote};

    // A writer at the front of a place.
    pub fn new(out: &'a mut [u8]) -> Writer<'a>
        ensures same_reference { result.out.ghost_name ≡ out.entry.ghost_name }
        ensures same_bytes { result.out.now ≡ out.old }
        ensures empty { result.at ≡ 0 }
    {
        Writer { out, at: 0 }
    }

    // A writer over a place of which `at` bytes are written already. Where `at` is past the end, nothing is written.
    pub fn at(out: &'a mut [u8], at: usize) -> Writer<'a>
        ensures same_reference { result.out.ghost_name ≡ out.entry.ghost_name }
        ensures same_bytes { result.out.now ≡ out.old }
        ensures written { result.at ≡ min at (length out.old) }
    {
        let at = at.min(out.len());
        Writer { out, at }
    }

    // What is written.
    pub fn written(&self) -> &[u8]
        ensures { result.now ≡ take self.now.at self.now.out.now }
    {
        &self.out[..self.at]
    }

    // How many bytes are written: the place past them. What was cut doesn't count.
    pub fn place(&self) -> usize
        ensures { result ≡ self.now.at }
    {
        self.written().len()
    }

    // Copies a piece, byte by byte: `copy_from_slice` would have the library for C ask for `memmove`.
    pub fn append(&mut self, piece: &[u8])
        ensures { Wrote piece.now self.old self.new }
    {
        let n = piece.len().min(self.out.len() - self.at);
        for (i, &b) in piece[..n].iter().enumerate() {
            self.out[self.at + i] = b;
        }
        self.at += n;
    }

    // A text that is not the program's own: its control characters become blanks, so that it stays on its line.
    pub fn write_shown(&mut self, text: &[u8])
        ensures { Wrote (shown text.now) self.old self.new }
    {
        for &b in text {
            self.append_byte(shown_byte(b));
        }
    }

    // A number in decimal digits. std's formatting answers a `Result`, which a writer that can't fail would have to drop.
    pub fn write_number(&mut self, n: u64)
        ensures { Wrote (number_text n) self.old self.new }
    {
        if 10 <= n {
            self.write_number(n / 10);
        }
        self.append_byte(b'0' + (n % 10) as u8);
    }

    // A number between two texts.
    #[tactic(auto, using(crate::proofs::AppendLaws::appended_then))]
    pub fn write_numbered(&mut self, before: &[u8], n: u64, after: &[u8])
        ensures { Wrote (before.now ++ number_text n ++ after.now) self.old self.new }
    {
        self.append(before);
        self.write_number(n);
        self.append(after);
    }

    // The n-th of some items, from 0; `?` where there are fewer.
    #[tactic(auto, unfolding(crate::specs::Items::item))]
    pub fn write_item(&mut self, items: &[&[u8]], n: u32)
        ensures { Wrote (item n (map (λ text. text.now) items.now)) self.old self.new }
    {
        match items.get(n as usize) {
            Some(text) => self.append(text),
            None => self.append(b"?"),
        }
    }

    // The n-th of the items that bars part in a text, from 0; `?` where there are fewer.
    pub fn write_item_of(&mut self, items: &[u8], n: u32)
        ensures { Wrote (item_of n items.now) self.old self.new }
    {
        match items.split(|b| *b == b'|').nth(n as usize) {
            Some(text) => self.append(text),
            None => self.append(b"?"),
        }
    }

    // Puts a byte; past the end, nothing.
    #[tactic(auto, unfolding(crate::specs::Append::appended))]
    pub(crate) fn append_byte(&mut self, b: u8)
        ensures { Wrote (b ∷ []) self.old self.new }
    {
        if self.at < self.out.len() {
            self.out[self.at] = b;
            self.at += 1;
        }
    }
}

fn shown_byte(b: u8) -> u8
    ensures { result ≡ shown_byte b }
{
    if b.is_ascii_control() && b != b'\t' {
        b' '
    } else {
        b
    }
}
