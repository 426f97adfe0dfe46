// The tests of one node: 13, 14 and 16. The table is accepted, and so are the nodes that a test looks at, so no length is tested again.
ghost use Rattle.std.specs.Prelude.{◌≡◌, ◌+◌, ◌*◌, ◌≤◌, ◌<◌, IsTrue, length};
ghost use Rattle.grammar.specs.Table as tables;
ghost use Rattle.trees.specs.Tree as tree;
ghost use Rattle.trees.specs.Checking as check;
ghost use Rattle.checking.specs.Walk as walk;

use access::{Table, known};
use refusals::Refusal;
use trees::TERMINAL_MARK;

// Symbol x of an accepted grammar is a nonterminal.
pub fn nonterminal(table: &Table<'_>, x: usize) -> bool
    requires { x < tables.symbols table.now.words.now }
    ensures { result ≡ tables.nonterminal table.now.words.now x }
{
    known(table.words, 3 + 3 * x) == 0
}

// The right length of the rule at word p.
pub fn right_length(table: &Table<'_>, p: usize) -> usize
    requires { p + 1 < length table.now.words.now }
    ensures value { result ≡ tables.length_at table.now.words.now p }
    ensures upper_bound { result < 65536 }
{
    known(table.words, p + 1)
}

// 13: the first word of node n is a rule or a terminal.
fn known_word(table: &Table<'_>, t: &[u16], n: usize) -> bool
    requires { (n < tree.most_nodes) × (n < tree.nodes t.now) }
    ensures { result ≡ check.known_word table.now.words.now t.now n }
{
    let r = known(t, 8 * n);
    if r < TERMINAL_MARK {
        return r < access::rules(table.words);
    }
    let x = r - TERMINAL_MARK;
    x < access::symbols(table.words) && !nonterminal(table, x)
}

// How many slots node n uses, once its first word is known.
pub fn used_slots(table: &Table<'_>, t: &[u16], n: usize) -> usize
    requires known { IsTrue (check.known_word table.now.words.now t.now n) }
    requires n_lt_most_nodes { (n < tree.most_nodes) × (n < tree.nodes t.now) }
    ensures value { result ≡ tree.used_slots table.now.words.now t.now n }
    ensures upper_bound { result ≤ 7 }
{
    let r = known(t, 8 * n);
    if r < TERMINAL_MARK {
        return right_length(table, table.rule_at(r));
    }
    0
}

// 14: slot i of node n names a node above it, or nothing where it is not used.
fn slot_fits(t: &[u16], n: usize, i: usize, used: usize) -> bool
    requires { (n < tree.most_nodes) × ((n < tree.nodes t.now) × (i < 8)) }
    ensures { result ≡ walk.slot_test t.now n i used }
{
    let child = known(t, 8 * n + i);
    if i > used {
        return child == 0;
    }
    n < child && child < t.len() / 8
}

// Every slot of node n.
fn slots_fit(t: &[u16], n: usize, used: usize) -> bool
    requires { (n < tree.most_nodes) × (n < tree.nodes t.now) }
    ensures { result ≡ walk.slot_tests t.now n used }
{
    (1..8).all(|i: usize| slot_fits(t, n, i, used))
}

// 13, then 14, at node n.
pub fn node_fault(table: &Table<'_>, t: &[u16], n: usize) -> Result<(), Refusal>
    requires { (n < tree.most_nodes) × (n < tree.nodes t.now) }
    ensures { result ≡ check.node_fault table.now.words.now t.now n }
{
    if !known_word(table, t, n) {
        return Err(Refusal::NoSuchRule(n));
    }
    if !slots_fit(t, n, used_slots(table, t, n)) {
        return Err(Refusal::BadChild(n));
    }
    Ok(())
}

// The symbol of node n, once its first word is known.
pub fn symbol_at_node(table: &Table<'_>, t: &[u16], n: usize) -> usize
    requires known { IsTrue (check.known_word table.now.words.now t.now n) }
    requires n_lt_most_nodes { (n < tree.most_nodes) × (n < tree.nodes t.now) }
    ensures { result ≡ tree.symbol_at_node table.now.words.now t.now n }
{
    let r = known(t, 8 * n);
    if r < TERMINAL_MARK {
        return known(table.words, table.rule_at(r));
    }
    r - TERMINAL_MARK
}

// 16 at the child in slot i of node n, whose rule starts at word p.
fn child_fits(table: &Table<'_>, t: &[u16], n: usize, p: usize, i: usize) -> bool
    requires known { walk.Known table.now.words.now t.now }
    requires used_slot { walk.UsedSlot table.now.words.now t.now n p i }
    ensures { result ≡ walk.child_test table.now.words.now t.now n i }
{
    symbol_at_node(table, t, known(t, 8 * n + i)) == known(table.words, p + 1 + i)
}

// 16 at the used slots of node n, whose rule starts at word p.
fn slots_match(table: &Table<'_>, t: &[u16], n: usize, p: usize, used: usize) -> bool
    requires known { walk.Known table.now.words.now t.now }
    requires all_slots { walk.AllSlots table.now.words.now t.now n p used }
    ensures { result ≡ walk.child_tests_to table.now.words.now t.now n used }
{
    (1..used + 1).all(|i| child_fits(table, t, n, p, i))
}

// 16 at node n.
fn children_fit(table: &Table<'_>, t: &[u16], n: usize) -> bool
    requires known { walk.Known table.now.words.now t.now }
    requires n_bound { n < tree.nodes t.now }
    ensures { result ≡ check.children_fit table.now.words.now t.now n }
{
    let r = known(t, 8 * n);
    if r < TERMINAL_MARK {
        let p = table.rule_at(r);
        return slots_match(table, t, n, p, right_length(table, p));
    }
    true
}

pub fn child_fault(table: &Table<'_>, t: &[u16], n: usize) -> Result<(), Refusal>
    requires known { walk.Known table.now.words.now t.now }
    requires n_bound { n < tree.nodes t.now }
    ensures { result ≡ walk.children_fault table.now.words.now t.now n }
{
    if !children_fit(table, t, n) {
        return Err(Refusal::ChildDiffers(n));
    }
    Ok(())
}
