// Relations in lent rows: arcs are added and the rows closed in place. Together they are the function addarctrans of 000, section 7.
#![tactic(auto)]

mod fours;

ghost use Rattle.std.specs.Prelude.{◌≡◌, ◌+◌, ◌≤◌, ◌<◌, map};
ghost use Rattle.bits.specs.Bit.{field, raised};
ghost use Rattle.basics.specs.Lists.{word};
ghost use Rattle.closing.specs.Rows as spec;
ghost use Rattle.closing.specs.Closure as closure;
ghost use Rattle.closing.specs.Fours as four;

use grammar::ROWS;

// The members of a set and all that they lead to.
fn reached_from(rows: &[u64; ROWS], set: u64) -> u64
    ensures { spec.Reached rows.now set result }
{
    let mut reached = set;
    for b in bits::members(set) {
        reached = bits::union(reached, rows[b]);
    }
    reached
}

// Adds the arcs from o to each member of `to`, and those from o to all that they lead to.
pub fn extend_row(rows: &mut [u64; ROWS], o: usize, to: u64)
    requires { o < 64 }
    ensures { spec.Extended rows.old o to rows.new }
{
    let reached = reached_from(rows, to);
    rows[o] = bits::union(rows[o], reached);
}

// A row with what m leads to, if the row leads to m.
fn by(row: u64, m: usize, onward: u64) -> u64
    requires { m < 64 }
    ensures { result ≡ closure.row_by m onward row }
{
    if bits::has(row, m) {
        return bits::union(row, onward);
    }
    row
}

// The paths by way of m, which leads onward to some.
fn pass_rows(rows: &mut [u64], m: usize, onward: u64)
    requires { m < 64 }
    ensures { rows.new ≡ map (closure.row_by m onward) rows.old }
{
    for row in rows.iter_mut() {
        *row = by(*row, m, onward);
    }
}

// The paths by way of one middle: each of the first rows that leads to m gets what m leads to.
fn pass_first(rows: &mut [u64; ROWS], count: usize, m: usize)
    requires { (count ≤ 64) × (m < 64) }
    ensures { closure.Anew rows.old (closure.row_by m (word rows.old m)) count rows.new }
{
    let onward = rows[m];
    pass_rows(&mut rows[..count], m, onward);
}

// The members of a set that a path can go by way of: a member leads to them, and they lead on.
pub fn inner(rows: &[u64; ROWS], among: u64) -> u64
    ensures { closure.Inner rows.now among result }
{
    let mut starts = 0;
    let mut ends = 0;
    for o in bits::members(among) {
        let row = rows[o];
        starts = bits::put(starts, o, row != 0);
        ends = bits::union(ends, row);
    }
    bits::common(starts, ends)
}

// The paths by way of middles that are some of the four from k on: these are closed among themselves, and what they lead to is put together for
// each choice of them, so that every row gets all that it is to get at once.
fn pass_four(rows: &mut [u64; ROWS], count: usize, here: u64, k: usize)
    requires bounds { (count ≤ 64) × (k ≤ 60) }
    requires of_four { four.OfFour k here }
    ensures { closure.Stepped rows.old count here rows.new }
{
    let four = fours::closed(rows, here, k);
    let unions = fours::unions(&four);
    fours::pass(&mut rows[..count], k, &unions);
}

// The same for any number of them: one alone has nothing to be put together with.
fn step(rows: &mut [u64; ROWS], count: usize, here: u64, k: usize)
    requires bounds { (count ≤ 64) × ((k ≤ 60) × (0 < here)) }
    requires of_four { four.OfFour k here }
    ensures { closure.Stepped rows.old count here rows.new }
{
    if bits::rest(here) == 0 {
        pass_first(rows, count, bits::first(here));
        return;
    }
    pass_four(rows, count, here, k);
}

// Closes the rows of a set in place, by up to four middles at a time. The middles are outermost, so that a path that was found by way of some may
// go on by way of the next. Members at which paths meet already need not be middles. Every arc starts at a member, so that rows of no member are
// empty and can be gone through with the others.
pub fn close(rows: &mut [u64; ROWS], among: u64, middles: u64)
    requires meeting { closure.Meeting rows.old among middles }
    requires starts { spec.Starts rows.old among }
    ensures { closure.Closure rows.old among rows.new }
{
    let count = bits::end(among);
    let mut left = middles;
    while left != 0 {
        let k = fours::start(bits::first(left));
        let here = bits::common(left, fours::four_from(k));
        left = bits::minus(left, here);
        step(rows, count, here, k);
    }
}

// The eight places of a set from number m on, put to those from n on.
pub fn moved(set: u64, m: usize, n: usize) -> u64
    requires { (m ≤ 56) × (n ≤ 56) }
    ensures { result ≡ raised n (field m set) }
{
    let places = bits::field(set, m);
    bits::raised(places, n)
}

// The arcs between the attributes at position i, one byte for each attribute that it leads from.
pub fn arcs_at(rows: &[u64; ROWS], i: usize, count: usize) -> u64
    requires { (i < 8) × (count ≤ 8) }
    ensures { result ≡ spec.arcs_at rows.now i count }
{
    let mut arcs = 0;
    for a in 0..count {
        let part = moved(rows[8 * i + a], 8 * i, 8 * a);
        arcs = bits::union(arcs, part);
    }
    arcs
}
