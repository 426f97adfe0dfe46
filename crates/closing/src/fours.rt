// Four middles at a time. What a row gets by way of them depends only on which of the four it leads to: it is one of 16 unions of their rows.
ghost use Rattle.std.specs.Prelude.{◌≡◌, ◌+◌, ◌*◌, ◌/◌, ◌≤◌, ◌<◌, map};
ghost use Rattle.bits.specs.Bit as sets;
ghost use Rattle.closing.specs.Fours as spec;

use grammar::ROWS;

// The first of the four that m is one of.
pub fn start(m: usize) -> usize
    requires { m < 64 }
    ensures { result ≡ m / 4 * 4 }
{
    m / 4 * 4
}

// The four from k on.
pub fn four_from(k: usize) -> u64
    requires { k ≤ 60 }
    ensures { result ≡ sets.raised k 15 }
{
    15 << k
}

// The row of m where m is a member of a set, else none.
fn row_of(rows: &[u64; ROWS], here: u64, m: usize) -> u64
    requires { m < 64 }
    ensures { result ≡ spec.row_of rows.now here m }
{
    if bits::has(here, m) {
        return rows[m];
    }
    0
}

// The rows of the four from k on.
fn rows_of(rows: &[u64; ROWS], here: u64, k: usize) -> [u64; 4]
    requires { k ≤ 60 }
    ensures { spec.RowsOf rows.now here k 4 result }
{
    std::array::from_fn(
        |i: usize|
            requires { (i < 4) × (k ≤ 60) }
        { row_of(rows, here, k + i) },
    )
}

// The rows of the four from k on, closed among themselves: one after the other is the middle.
pub fn closed(rows: &[u64; ROWS], here: u64, k: usize) -> [u64; 4]
    requires k_bound { k ≤ 60 }
    requires of_four { spec.OfFour k here }
    ensures { spec.Closed rows.now here k result }
{
    let mut four = rows_of(rows, here, k);
    for i in 0..4usize {
        let onward = four[i];
        super::pass_rows(&mut four, k + i, onward);
    }
    four
}

// Doubles a table of unions, of which there are so many: each of them once more, with a further row.
fn double(unions: &mut [u64; 16], count: usize, row: u64)
    requires { count ≤ 8 }
    ensures { spec.Doubled unions.old count row count unions.new }
{
    for s in 0..count {
        unions[count + s] = bits::union(unions[s], row);
    }
}

// The unions of four rows, by which of them.
pub fn unions(four: &[u64; 4]) -> [u64; 16]
    ensures { spec.Unions four.now 16 result }
{
    let mut unions = [0u64; 16];
    double(&mut unions, 1, four[0]);
    double(&mut unions, 2, four[1]);
    double(&mut unions, 4, four[2]);
    double(&mut unions, 8, four[3]);
    unions
}

// Which of the four from k on a row leads to, as a set of numbers below 4.
fn which(row: u64, k: usize) -> usize
    requires { k ≤ 60 }
    ensures value { result ≡ spec.four_at k row }
    ensures upper_bound { result < 16 }
{
    ((row >> k) % 16) as usize
}

// The paths by way of the four from k on: each row gets the union of the rows that it leads to. An empty row stays empty.
pub fn pass(rows: &mut [u64], k: usize, unions: &[u64; 16])
    requires { k ≤ 60 }
    ensures { rows.new ≡ map (spec.row_by_four k unions.now) rows.old }
{
    for row in rows.iter_mut() {
        *row = bits::union(*row, unions[which(*row, k)]);
    }
}
