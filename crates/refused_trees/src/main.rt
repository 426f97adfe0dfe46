// A damaged tree for each refusal of 12 to 18: what is answered, how many values changed, and how many words of rows and plan.
#![tactic(auto)]

ghost use Rattle.std.specs.Prelude.{◌≤◌, ◌<◌, ◌≡◌, not, length, count_by};
ghost use Rattle.refused_trees.specs.Changed as counts;

use samples::{G, TWO_LINES};
use std::io;

// What stands in the buffers before: no value, row or plan word of this grammar is the same.
const VALUE: i32 = 9;

const ROW: u64 = u64::MAX;

const WORD: u16 = u16::MAX;

// How many items are another than before.
fn changed<T: Copy + PartialEq>(items: &[T], before: T) -> usize
    ensures { result ≡ count_by (λ x. not (T.eq x before)) items.now }
{
    items.iter().filter(|x| **x != before).count()
}

// Of the values, of the rows and of the plan: how many are no longer what stood there.
fn values_changed(values: &[i32]) -> usize
    ensures { result ≡ counts.values_changed values.now }
{
    changed(values, VALUE)
}

fn rows_changed(rows: &[u64]) -> usize
    ensures { result ≡ counts.changed rows.now 18446744073709551615 }
{
    changed(rows, ROW)
}

fn words_changed(plan: &[u16]) -> usize
    ensures { result ≡ counts.changed plan.now 65535 }
{
    changed(plan, WORD)
}

// A run over the first words of this tree with the first of these values; rows and plan have room to spare.
fn run_part(
    rt: &impl Print,
    tree: &[u16],
    words: usize,
    values: &mut [i32],
    room: usize,
) -> io::Result<()>
    requires { (words ≤ length tree.now) × (room ≤ length values.old) }
{
    let mut rows = [ROW; 200];
    let mut plan = [WORD; 600];
    let report = runner::run(
        &G,
        &mut rows,
        &mut plan,
        &tree[..words],
        &mut values[..room],
        100,
    );
    printing::answer(rt, report)?;
    println!(rt;
        " values {} rows {} plan {}",
        values_changed(values),
        rows_changed(&rows),
        words_changed(&plan)
    )
}

// The tree of two lines with one word changed.
fn damaged(rt: &impl Print, at: usize, word: u16, words: usize, room: usize) -> io::Result<()>
    requires { (at < 40) × ((words ≤ 40) × (room ≤ 40)) }
{
    let mut tree = TWO_LINES;
    tree[at] = word;
    let mut values = [VALUE; 40];
    run_part(rt, &tree, words, &mut values, room)
}

fn main(rt: HostRuntime) -> io::Result<()> {
    let rt = &rt;
    // 12: the tree ends within a node.
    damaged(rt, 0, 0, 39, 40)?;
    // 13: node 3 has rule 3, and there are three rules.
    damaged(rt, 24, 3, 40, 40)?;
    // 14: node 1 is its own child.
    damaged(rt, 10, 1, 40, 40)?;
    // 15: the root has a rule of lines.
    damaged(rt, 0, 2, 40, 40)?;
    // 16: node 1 has a line where lines should stand.
    damaged(rt, 10, 2, 40, 40)?;
    // 17: node 1 takes the line of node 3, and nobody is left to take node 2.
    damaged(rt, 9, 4, 40, 40)?;
    // 18: one value is missing.
    damaged(rt, 0, 0, 40, 39)
}
