// The check of a tree against a grammar: refusals 12 to 18. One walk is enough where 13 to 16 pass and no node is a child twice; where it is not sure,
// each refusal has a walk of its own, but 13 and 14 together. The grammar is a table that reading accepted, with the offsets of its rules.
#![tactic(auto)]

mod nodes;
mod one_walk;

ghost use Rattle.std.specs.Prelude.{◌≡◌, ◌+◌, ◌*◌, ◌≤◌, ◌<◌, IsTrue, leb, length};
ghost use Rattle.refusals.specs.declared.Refusal.TheVariants.{ValuesTooShort};
ghost use Rattle.grammar.specs.Verdicts.{unless};
ghost use Rattle.trees.specs.Tree as tree;
ghost use Rattle.trees.specs.Checking as check;
ghost use Rattle.checking.specs.Walk as walk;

use access::Table;
use one_walk::Unsure;
use refusals::Refusal;
use trees::MOST_NODES;

// For each node how often it is named.
type Names = [u16; MOST_NODES];

// 12: whole nodes, at least one, at most 1,024.
fn size_fits(t: &[u16]) -> bool
    ensures { result ≡ check.size_fits t.now }
{
    let nodes = t.len() / 8;
    t.len() % 8 == 0 && 1 <= nodes && nodes <= MOST_NODES
}

// Counts each used slot of node n for the node that it names.
fn name_children(named: &mut [u16], t: &[u16], n: usize, used: usize)
    requires { walk.Naming named.old t.now n used }
    ensures { walk.NamedMore named.old named.new t.now n used }
{
    for &child in &t[8 * n + 1..8 * n + 1 + used] {
        named[child as usize] += 1;
    }
}

// How often each node is named as a child.
fn count_names(table: &Table<'_>, t: &[u16], nodes: usize) -> Names
    requires known { walk.Known table.now.words.now t.now }
    requires nodes_value { nodes ≡ tree.nodes t.now }
    ensures { walk.Names table.now.words.now t.now nodes result }
{
    let mut named = [0u16; MOST_NODES];
    for n in 0..nodes {
        name_children(&mut named, t, n, nodes::used_slots(table, t, n));
    }
    named
}

// 18: eight values for each node.
fn values_fault(nodes: usize, values: usize) -> Result<(), Refusal>
    requires { nodes ≤ tree.most_nodes }
    ensures { result ≡ unless (leb (8 * nodes) values) ValuesTooShort }
{
    if values < 8 * nodes {
        return Err(Refusal::ValuesTooShort);
    }
    Ok(())
}

// The check walk by walk, of a tree that passed 12.
fn by_walks(table: &Table<'_>, t: &[u16], values: usize) -> Result<(), Refusal>
    requires { IsTrue (check.size_fits t.now) }
    ensures { result ≡ check.check_tree table.now.words.now t.now values }
{
    let nodes = t.len() / 8;
    for n in 0..nodes {
        nodes::node_fault(table, t, n)?;
    }
    if nodes::symbol_at_node(table, t, 0) != access::start(table.words) {
        return Err(Refusal::RootNotStart);
    }
    for n in 0..nodes {
        nodes::child_fault(table, t, n)?;
    }
    let named = count_names(table, t, nodes);
    // The root has no parent.
    for n in 1..nodes {
        if named[n] != 1 {
            return Err(Refusal::NotOneParent(n));
        }
    }
    values_fault(nodes, values)
}

// The whole check, with values of this length.
pub fn check(table: &Table<'_>, t: &[u16], values: usize) -> Result<(), Refusal>
    ensures { result ≡ check.check_tree table.now.words.now t.now values }
{
    if !size_fits(t) {
        return Err(Refusal::TreeSize);
    }
    let nodes = t.len() / 8;
    match one_walk::first_orphan(table, t, nodes) {
        Ok(None) => values_fault(nodes, values),
        Ok(Some(orphan)) => Err(Refusal::NotOneParent(orphan)),
        Err(Unsure) => by_walks(table, t, values),
    }
}
