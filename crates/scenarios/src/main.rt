// Runs: document 01's tree of two lines under every budget, and trees as large as a tree may be.
#![tactic(auto)]

ghost use Rattle.std.specs.Prelude.{◌≡◌, ◌+◌, ◌*◌, ◌≤◌, ◌<◌, length};
ghost use Rattle.scenarios.specs.Nodes as nodes;

use samples::{G, TWO_LINES};
use std::io;

// A chain in which each node tells the next how deep it is, and the depth of the last goes up to the root:
// Z to A, A to A, A to nothing; A has the depth found below, its own depth, and 1 to add.
const CHAIN: [u16; 42] = [
    2, 3, 0, 0, 1, 0, 0, 3, 6, 0, 1, 1, 3, 0, 1, 8, 9, 0, 1, 10, 0, 1, 1, 1, 1, 3, 0, 1, 8, 9, 2,
    1, 2, 10, 1, 2, 1, 0, 1, 0, 1, 1,
];

// What stands in a value before the run, so that a value of 0 shows as written.
const BEFORE: i32 = 9;

// The values of the first attributes of node n.
fn print_node(rt: &impl Print, values: &[i32], n: usize, attributes: usize) -> io::Result<()>
    requires { (n < 1024) × ((attributes < 8) × (8 * n + 8 ≤ length values.now)) }
{
    let first = 8 * n;
    for v in &values[first..first + attributes] {
        print!(rt; " {v}")?;
    }
    Ok(())
}

// The values of the tree of two lines, node by node.
fn print_two_lines(rt: &impl Print, values: &[i32]) -> io::Result<()>
    requires { length values.now ≡ 40 }
{
    print!(rt; " values")?;
    print_node(rt, values, 0, 1)?;
    print_node(rt, values, 1, 3)?;
    print_node(rt, values, 2, 1)?;
    print_node(rt, values, 3, 3)?;
    print_node(rt, values, 4, 1)
}

// The tree of two lines with these priorities, for at most budget actions.
fn run_two_lines(rt: &impl Print, first: i32, second: i32, budget: u32) -> io::Result<()> {
    let mut rows = [0u64; 192];
    let mut plan = [0u16; 592];
    let mut values = [BEFORE; 40];
    values[16] = first;
    values[32] = second;
    let report = runner::run(&G, &mut rows, &mut plan, &TWO_LINES, &mut values, budget);
    print!(rt; "budget {budget} ")?;
    printing::answer(rt, report)?;
    print_two_lines(rt, &values)?;
    println!(rt; "")
}

// Every budget up to one more than the run takes, and the largest.
fn every_budget(rt: &impl Print, first: i32, second: i32) -> io::Result<()> {
    println!(rt; "priorities {first} {second}")?;
    for budget in 0..18u32 {
        run_two_lines(rt, first, second, budget)?;
    }
    run_two_lines(rt, first, second, u32::MAX)
}

// Node n of a tree: its first word and two children, 0 where it has none.
fn put_node(tree: &mut [u16; 8192], n: usize, rule: u16, first: u16, second: u16)
    requires { (n < 1024) × (length tree.old ≡ 8192) }
    ensures { nodes.Holds (nodes.put n rule first second tree.old) tree.new }
{
    tree[8 * n] = rule;
    tree[8 * n + 1] = first;
    tree[8 * n + 2] = second;
}

// A node with rule 1 of G and its line.
fn put_line(tree: &mut [u16; 8192], k: u16)
    requires { (k < 510) × (length tree.old ≡ 8192) }
    ensures { nodes.Holds (nodes.line k tree.old) tree.new }
{
    put_node(tree, (2 * k + 1) as usize, 1, 2 * k + 2, 2 * k + 3);
    put_node(tree, (2 * k + 2) as usize, 32770, 0, 0);
}

// A tree of G with 511 lines: 1,023 nodes, of which every second one from node 2 on is a line.
fn many_lines(tree: &mut [u16; 8192])
    requires { length tree.old ≡ 8192 }
    ensures { nodes.Holds (nodes.many_lines tree.old) tree.new }
{
    put_node(tree, 0, 0, 1, 0);
    for k in 0..510u16 {
        put_line(tree, k);
    }
    put_node(tree, 1021, 2, 1022, 0);
    put_node(tree, 1022, 32770, 0, 0);
}

// The chain with 1,024 nodes, all of them on the stack when the last is visited.
fn long_chain(tree: &mut [u16; 8192])
    requires { length tree.old ≡ 8192 }
    ensures { nodes.Holds (nodes.long_chain tree.old) tree.new }
{
    put_node(tree, 0, 0, 1, 0);
    for k in 0..1022u16 {
        put_node(tree, (k + 1) as usize, 1, k + 2, 0);
    }
    put_node(tree, 1023, 2, 0, 0);
}

// The root's value, and those of node 1 and of a node far down.
fn print_ends(rt: &impl Print, values: &[i32], last: usize) -> io::Result<()>
    requires { (last < 1024) × (length values.now ≡ 8192) }
{
    print!(rt; " values")?;
    print_node(rt, values, 0, 1)?;
    print_node(rt, values, 1, 3)?;
    print_node(rt, values, last, 3)
}

// The tree of the first nodes of a large one, for at most budget actions. Every line has priority 4, but that at node 512 has 7.
fn run_large(
    rt: &impl Print,
    words: &[u16],
    tree: &[u16],
    nodes: usize,
    last: usize,
    budget: u32,
) -> io::Result<()>
    requires nodes_bound { (nodes ≤ 1024) × (last < 1024) }
    requires tree_len { length tree.now ≡ 8192 }
{
    let end = 8 * nodes;
    let mut rows = [0u64; 192];
    let mut plan = [0u16; 592];
    let mut values = [4i32; 8192];
    values[4096] = 7;
    let report = runner::run(
        words,
        &mut rows,
        &mut plan,
        &tree[..end],
        &mut values,
        budget,
    );
    print!(rt; "nodes {nodes} ")?;
    printing::answer(rt, report)?;
    print_ends(rt, &values, last)?;
    println!(rt; "")
}

fn large_trees(rt: &impl Print) -> io::Result<()> {
    let mut tree = [0u16; 8192];
    many_lines(&mut tree);
    run_large(rt, &G, &tree, 1023, 1021, 3578)?;
    run_large(rt, &G, &tree, 1023, 1021, u32::MAX)
}

fn deep_trees(rt: &impl Print) -> io::Result<()> {
    let mut tree = [0u16; 8192];
    long_chain(&mut tree);
    run_large(rt, &CHAIN, &tree, 1024, 1023, 5116)?;
    run_large(rt, &CHAIN, &tree, 1024, 1023, u32::MAX)
}

fn main(rt: HostRuntime) -> io::Result<()> {
    let rt = &rt;
    every_budget(rt, 3, 5)?;
    every_budget(rt, 3, 2)?;
    large_trees(rt)?;
    deep_trees(rt)
}
