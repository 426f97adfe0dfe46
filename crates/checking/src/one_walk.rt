// One walk up the nodes that is enough for a tree that passes 13 to 16 and has no node that is a child twice: it finds the first node without a parent.
// A parent stands before its children, so each node finds written down which symbol its parent's rule wants there. Of any other tree the walk is not sure,
// and the walks of their own find the first fault.
ghost use Rattle.std.specs.Prelude.{◌≡◌, ◌+◌, ◌*◌, ◌≤◌, ◌<◌, MatchResult, length};
ghost use Rattle.basics.specs.Lists.{word};
ghost use Rattle.grammar.specs.Verdicts.{Good};
ghost use Rattle.trees.specs.Tree as tree;
ghost use Rattle.trees.specs.Checking as check;
ghost use Rattle.checking.specs.Walk as walk;

use super::nodes::{nonterminal, right_length};
use access::{Table, known};
use trees::{MOST_NODES, TERMINAL_MARK};

// Stands for a symbol where nothing is written down.
const NO_SYMBOL: u8 = 255;

// The answer of a walk that is not sure: the tree has another fault in 13 to 17 than a node without a parent.
#[derive(Drop)]
pub struct Unsure;

// Slot i of node n where it is not used, else 0.
fn unused_word(t: &[u16], n: usize, i: usize, used: usize) -> usize
    requires { (n < tree.most_nodes) × ((n < tree.nodes t.now) × (i < 8)) }
    ensures value { result ≡ walk.unused_word t.now n i used }
    ensures upper_bound { result < 65536 }
{
    if i <= used {
        return 0;
    }
    known(t, 8 * n + i)
}

// Whether the slots of node n that are not used are zero: they are added up, so one test is enough, which takes less time than a test of each.
fn unused_empty(t: &[u16], n: usize, used: usize) -> bool
    requires { (n < tree.most_nodes) × (n < tree.nodes t.now) }
    ensures { result ≡ walk.unused_empty t.now n used }
{
    let mut sum: usize = 0;
    for i in 1..8 {
        sum += unused_word(t, n, i, used);
    }
    sum == 0
}

// Whether a slot of node n names a node above it that no slot named before.
fn is_new(wanted: &[u8], t: &[u16], n: usize, child: usize) -> bool
    requires { walk.OnNode wanted.now t.now n }
    ensures { result ≡ walk.is_new wanted.now t.now n child }
{
    n < child && child < t.len() / 8 && wanted[child] == NO_SYMBOL
}

// Writes down for each child of node n the symbol that the rule at word p has there. Fails where a slot names no new node above.
fn write_children(
    wanted: &mut [u8],
    table: &Table<'_>,
    t: &[u16],
    n: usize,
    p: usize,
    used: usize,
) -> Result<(), Unsure>
    requires { walk.Writing wanted.old table.now.words.now t.now n p used }
    ensures { MatchResult result (λ _. walk.Written wanted.old wanted.new table.now.words.now t.now n p used) (λ _. walk.Refuses wanted.old t.now n used) }
{
    for (i, &child) in t[8 * n + 1..8 * n + 1 + used].iter().enumerate() {
        let child = child as usize;
        if !is_new(wanted, t, n, child) {
            return Err(Unsure);
        }
        wanted[child] = known(table.words, p + 2 + i) as u8;
    }
    Ok(())
}

// The symbol of node n, which applies the rule at word p.
fn rule_symbol(
    wanted: &mut [u8],
    table: &Table<'_>,
    t: &[u16],
    n: usize,
    p: usize,
) -> Result<usize, Unsure>
    requires { walk.AtRule wanted.old table.now.words.now t.now n p }
    ensures { MatchResult result (λ x. walk.NodeRead wanted.old wanted.new table.now.words.now t.now n x)
        (λ _. walk.Unread wanted.old table.now.words.now t.now n) }
{
    let used = right_length(table, p);
    if !unused_empty(t, n, used) {
        return Err(Unsure);
    }
    write_children(wanted, table, t, n, p, used)?;
    Ok(known(table.words, p))
}

// The symbol of node n, which is terminal x if there is one.
fn terminal_symbol(table: &Table<'_>, t: &[u16], n: usize, x: usize) -> Result<usize, Unsure>
    requires { walk.AtTerminal table.now.words.now t.now n x }
    ensures { MatchResult result (λ y. walk.NodeFits table.now.words.now t.now n y)
        (λ _. check.node_fault table.now.words.now t.now n ≡ Good → ⊥) }
{
    if x >= access::symbols(table.words) || nonterminal(table, x) || !unused_empty(t, n, 0) {
        return Err(Unsure);
    }
    Ok(x)
}

// The symbol of node n, whose first word r is below the mark of terminals.
fn applied_symbol(
    wanted: &mut [u8],
    table: &Table<'_>,
    t: &[u16],
    n: usize,
    r: usize,
) -> Result<usize, Unsure>
    requires on_node { walk.OnNode wanted.old t.now n }
    requires r_value { (r ≡ tree.rule_of t.now n) × (r < tree.terminal_mark) }
    ensures { MatchResult result (λ x. walk.NodeRead wanted.old wanted.new table.now.words.now t.now n x)
        (λ _. walk.Unread wanted.old table.now.words.now t.now n) }
{
    if r >= access::rules(table.words) {
        return Err(Unsure);
    }
    rule_symbol(wanted, table, t, n, table.rule_at(r))
}

// The symbol of node n, with those of its children written down. Fails where 13 or 14 refuses it, or where it names a node that was named before.
fn node_symbol(wanted: &mut [u8], table: &Table<'_>, t: &[u16], n: usize) -> Result<usize, Unsure>
    requires { walk.OnNode wanted.old t.now n }
    ensures { MatchResult result (λ x. walk.NodeRead wanted.old wanted.new table.now.words.now t.now n x)
        (λ _. walk.Unread wanted.old table.now.words.now t.now n) }
{
    let r = known(t, 8 * n);
    if r < TERMINAL_MARK {
        return applied_symbol(wanted, table, t, n, r);
    }
    terminal_symbol(table, t, n, r - TERMINAL_MARK)
}

// Goes past node n, where `orphan` is the first node before it without a parent.
fn past_node(
    wanted: &mut [u8],
    table: &Table<'_>,
    t: &[u16],
    nodes: usize,
    n: usize,
    orphan: Option<usize>,
) -> Result<Option<usize>, Unsure>
    requires walked { walk.Walked table.now.words.now t.now wanted.old n orphan nodes }
    requires n_lt_nodes { n < nodes }
    ensures { MatchResult result (λ o. walk.Walked table.now.words.now t.now wanted.new (n + 1) o nodes)
        (λ _. walk.Apart table.now.words.now t.now → ⊥) }
{
    let symbol = node_symbol(wanted, table, t, n)?;
    let written = wanted[n];
    if written as usize == symbol {
        return Ok(orphan);
    }
    if written != NO_SYMBOL {
        return Err(Unsure);
    }
    Ok(orphan.or(Some(n)))
}

// The first node without a parent, if there is one.
pub fn first_orphan(table: &Table<'_>, t: &[u16], nodes: usize) -> Result<Option<usize>, Unsure>
    requires { (nodes ≡ tree.nodes t.now) × ((1 ≤ nodes) × (nodes ≤ tree.most_nodes)) }
    ensures { MatchResult result (λ o. walk.OneWalk table.now.words.now t.now o) (λ _. walk.Apart table.now.words.now t.now → ⊥) }
{
    let mut wanted = [NO_SYMBOL; MOST_NODES];
    wanted[0] = access::start(table.words) as u8;
    let mut orphan = None;
    for n in 0..nodes {
        orphan = past_node(&mut wanted, table, t, nodes, n, orphan)?;
    }
    Ok(orphan)
}
