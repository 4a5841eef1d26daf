// The tables as rows of numbers: a token row has three, a tree row and an error row four, a row of a collection two.
#![tactic(auto)]

ghost use Rattle.std.specs.Prelude.{◌≡◌};
ghost use Rattle.rows.specs.Rows.{first_rows, member_count};

use calls::value::Value;

// The numbers of a token table, and of a tree table or an error table, that every rule has room in.
pub const TOKENS: usize = 1500;

pub const ROWS: usize = 16032;

// The first n rows of a table, each of N numbers, or as many as it has. There are no rows of no numbers.
pub fn first<const N: usize>(table: &[u32], n: usize) -> &[[u32; N]]
    ensures { result.now ≡ first_rows N n table.now }
{
    if N == 0 {
        return &[];
    }
    let (rows, _) = table.as_chunks::<N>();
    &rows[..n.min(rows.len())]
}

// The rows of a collection table that have a value's members: none where it is no collection.
pub fn members(value: Value, collection: &[u32]) -> &[[u32; 2]]
    ensures { result.now ≡ first_rows 2 (member_count value) collection.now }
{
    match value {
        Value::Components(n) | Value::Features(n) | Value::Diagnostics(n) => first::<2>(
            collection, n,
        ),
        Value::Bool(_) | Value::BoolWithWarning(_) | Value::Count(_) => &[],
    }
}
