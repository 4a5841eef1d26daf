// What a table holds before a case is run, so that it shows afterwards which numbers were written.
ghost use Rattle.std.specs.Prelude.{◌≡◌, ◌<◌, ℕ, length, slice_index};
ghost use Rattle.cases.specs.Noise.{noise};

// The number at a place: with an even seed one that no row has, with an odd one such as rows have.
pub fn number(seed: usize, at: usize) -> u32
    ensures { result ≡ noise seed at }
{
    let counted = (seed % 65536 + at % 65536) as u32;
    if seed % 2 == 0 {
        return 4_000_000_000 + counted % 65536;
    }
    counted % 32
}

// Writes the number of each place there.
pub fn fill(table: &mut [u32], seed: usize)
    ensures len { length table.new ≡ length table.old }
    ensures numbers { (k : ℕ) → k < length table.old → slice_index table.new k ≡ noise seed k }
{
    for (at, number) in table.iter_mut().enumerate() {
        *number = self::number(seed, at);
    }
}

// A table of N numbers with the number of each place there.
pub fn table<const N: usize>(seed: usize) -> [u32; N]
    ensures len { length result ≡ N }
    ensures numbers { (k : ℕ) → k < N → slice_index result k ≡ noise seed k }
{
    let mut table = [0; N];
    fill(&mut table, seed);
    table
}
