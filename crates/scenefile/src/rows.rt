// The tables of a scene file, row by row, for every kind of row. A kind's records may have no bytes, and
// then `chunks_exact` may not cut them: each loop takes its record off the front of what is left.
ghost use Rattle.std.specs.Prelude.{◌≡◌, ℕ, ◌*◌, ◌<◌, ◌≤◌, map, length, take, drop, MatchOption};
ghost use Rattle.scenefile.specs.Rows.{row, rows, First, Nobodys};

use records::record::Record;

// The place of the first of a table's n records that is nobody's.
pub(crate) fn first_bad<R: Record + Drop>(table: &[u8], n: usize) -> Option<usize>
    requires { length table.now ≡ R.LENGTH * n }
    ensures { MatchOption result ((k : ℕ) → k < n → Nobodys R.written (row table.now 0 R.LENGTH k) → ⊥) (λ i. First (λ k. Nobodys R.written (row table.now 0 R.LENGTH k)) n i) }
{
    let mut rest = table;
    // the range counts the places, one of which is the answer
    for i in 0..n {
        let (record, after) = rest.split_at(R::LENGTH);
        if R::read(record).is_none() {
            return Some(i);
        }
        rest = after;
    }
    None
}

// Reads a table's n records, none of which is nobody's, into the front of a table of rows.
pub(crate) fn fill<R: Record + Copy>(table: &[u8], n: usize, into: &mut [R])
    requires long { length table.now ≡ R.LENGTH * n }
    requires room { n ≤ length into.old }
    requires good { (k : ℕ) → k < n → Nobodys R.written (row table.now 0 R.LENGTH k) → ⊥ }
    ensures front { map R.written (take n into.new) ≡ rows table.now 0 R.LENGTH n }
    ensures rest { drop n into.new ≡ drop n into.old }
{
    let mut rest = table;
    for place in into[..n].iter_mut() {
        let (record, after) = rest.split_at(R::LENGTH);
        if let Some(read) = R::read(record) {
            *place = read;
        }
        rest = after;
    }
}
