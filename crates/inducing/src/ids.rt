// Step 2 of 000, section 7: the arcs that the paths of a rule induce between the attributes of a symbol are put to those of the symbol, and each rule
// gets the arcs of its symbols. 000 marks an arc that every rule has; here a rule is stale while it may lack one. A rule gets DP, step 1, when it is
// taken up for the first time, so that it is closed once for both.
ghost use Rattle.std.specs.Prelude.{◌≡◌, ℕ, ◌+◌, ◌*◌, ◌≤◌, ◌<◌, length};
ghost use Rattle.bits.specs.Bit as sets;
ghost use Rattle.basics.specs.Lists.{word};
ghost use Rattle.grammar.specs.Table as tables;
ghost use Rattle.inducing.specs.Rules as rules;
ghost use Rattle.inducing.specs.Arcs as said;
ghost use Rattle.inducing.specs.Stale as state;

use access::{Rule, Table};
use grammar::ROWS;

// Puts rule r to the rules that name each of its symbols.
fn name_rule(table: &Table<'_>, r: usize, naming: &mut [u64; 32])
    requires inside { r < tables.rules table.now.words.now }
    ensures { state.NamedAt table.now.words.now r (tables.right_length table.now.words.now r + 1) naming.old naming.new }
{
    let rule = Rule {
        words: table.words,
        at: table.rule_at(r),
    };
    let n = rule.right_length();
    for i in 0..n + 1 {
        let x = rule.symbol(i);
        naming[x] = bits::with(naming[x], r);
    }
}

// For each symbol the rules that name it.
fn name_rules(table: &Table<'_>) -> [u64; 32]
    ensures { state.Naming table.now.words.now (tables.rules table.now.words.now) result }
{
    let count = access::rules(table.words);
    let mut naming = [0u64; 32];
    for r in 0..count {
        name_rule(table, r, &mut naming);
    }
    naming
}

// Puts arcs to those of symbol x, and answers the rules that this touches: those that name x where an arc is new, else none.
fn add_arcs(ids: &mut [u64; 32], x: usize, arcs: u64, names: u64) -> u64
    requires { x < 32 }
    ensures { state.Added x arcs names ids.old ids.new result }
{
    let new = bits::minus(arcs, ids[x]);
    if new == 0 {
        return 0;
    }
    ids[x] = bits::union(ids[x], new);
    names
}

// Puts the arcs at position i of a rule to those of the symbol there, and answers the rules that this touches.
fn gather_at(
    rule: &Rule<'_>,
    i: usize,
    rows: &[u64; ROWS],
    naming: &[u64; 32],
    ids: &mut [u64; 32],
) -> u64
    requires ruled { said.Ruled rule.now.words.now rule.now.at }
    requires i_bound { i ≤ tables.length_at rule.now.words.now rule.now.at }
    ensures { state.AddedAt rule.now.words.now rule.now.at i rows.now naming.now ids.old ids.new result }
{
    let x = rule.symbol(i);
    let arcs = closing::arcs_at(rows, i, access::attributes(rule.words, x));
    add_arcs(ids, x, arcs, naming[x])
}

// The same at each of its positions.
fn gather(rule: &Rule<'_>, rows: &[u64; ROWS], naming: &[u64; 32], ids: &mut [u64; 32]) -> u64
    requires ruled { said.Ruled rule.now.words.now rule.now.at }
    ensures { state.Gathering rule.now.words.now rule.now.at rows.now (tables.length_at rule.now.words.now rule.now.at + 1) naming.now ids.old ids.new result }
{
    let n = rule.right_length();
    let mut touched = 0;
    for i in 0..n + 1 {
        let more = gather_at(rule, i, rows, naming, ids);
        touched = bits::union(touched, more);
    }
    touched
}

// Rule r gets DP and the arcs that its symbols have so far, and hands on those that its paths induce. The answer is the rules that are touched by it.
fn open(
    table: &Table<'_>,
    r: usize,
    naming: &[u64; 32],
    rows: &mut [u64],
    ids: &mut [u64; 32],
) -> u64
    requires inside { r < tables.rules table.now.words.now }
    requires naming { state.Naming table.now.words.now (tables.rules table.now.words.now) naming.now }
    requires standing { rules.Standing table.now.words.now r rows.old ids.old }
    ensures { state.Refreshed table.now.words.now naming.now (r + 1) r rows.old ids.old rows.new ids.new result }
{
    let rule = Rule {
        words: table.words,
        at: table.rule_at(r),
    };
    let (_, later) = rows.split_at_mut(ROWS * r);
    let own = later.first_chunk_mut::<ROWS>().unwrap();
    super::open(&rule, own, rule.occurrences(), ids);
    gather(&rule, own, naming, ids)
}

// The same for a rule that has DP and is taken up again.
fn refresh(
    table: &Table<'_>,
    r: usize,
    naming: &[u64; 32],
    rows: &mut [u64],
    ids: &mut [u64; 32],
) -> u64
    requires inside { r < tables.rules table.now.words.now }
    requires naming { state.Naming table.now.words.now (tables.rules table.now.words.now) naming.now }
    requires standing { rules.Standing table.now.words.now (tables.rules table.now.words.now) rows.old ids.old }
    ensures { state.Refreshed table.now.words.now naming.now (tables.rules table.now.words.now) r rows.old ids.old rows.new ids.new result }
{
    let rule = Rule {
        words: table.words,
        at: table.rule_at(r),
    };
    let (_, later) = rows.split_at_mut(ROWS * r);
    let own = later.first_chunk_mut::<ROWS>().unwrap();
    super::spread(&rule, own, rule.occurrences(), ids);
    gather(&rule, own, naming, ids)
}

// The stale rule to take up next: the lowest from `from` on, else the lowest of all. So the rules are gone through upward, over and over.
fn choose(stale: u64, from: usize) -> usize
    requires { (0 < stale) × (from ≤ 64) }
    ensures chosen { state.Chosen stale result }
    ensures upward { state.Upward stale from result }
{
    let ahead = bits::minus(stale, bits::below(from));
    if ahead == 0 {
        return bits::first(stale);
    }
    bits::first(ahead)
}

// The stale rules once r was taken up: those that were but r, and those that it touched.
fn still_stale(stale: u64, r: usize, touched: u64) -> u64
    requires { r < 64 }
    ensures { result ≡ sets.union (sets.remove r stale) touched }
{
    let rest = bits::without(stale, r);
    bits::union(rest, touched)
}

// Step 1, and the first turn of step 2 for each rule. The answer is the rules that are stale then.
fn open_rules(table: &Table<'_>, naming: &[u64; 32], rows: &mut [u64], ids: &mut [u64; 32]) -> u64
    requires naming { state.Naming table.now.words.now (tables.rules table.now.words.now) naming.now }
    requires standing { rules.Standing table.now.words.now 0 rows.old ids.old }
    ensures { state.Stale table.now.words.now rows.old (tables.rules table.now.words.now) result rows.new ids.new }
{
    let count = access::rules(table.words);
    let mut stale = 0;
    for r in 0..count {
        let touched = open(table, r, naming, rows, ids);
        stale = still_stale(stale, r, touched);
    }
    stale
}

// The rest of step 2: as long as a rule is stale it is taken up, and the rules that it touches are stale from then on. No arc is taken back, so this
// ends.
fn settle(table: &Table<'_>, naming: &[u64; 32], rows: &mut [u64], ids: &mut [u64; 32], opened: u64)
    requires naming { state.Naming table.now.words.now (tables.rules table.now.words.now) naming.now }
    requires stale { state.Stale table.now.words.now rows.old (tables.rules table.now.words.now) opened rows.old ids.old }
    ensures { state.Stale table.now.words.now rows.old (tables.rules table.now.words.now) 0 rows.new ids.new }
{
    let mut stale = opened;
    let mut from = 0;
    while stale != 0 {
        let r = choose(stale, from);
        let touched = refresh(table, r, naming, rows, ids);
        stale = still_stale(stale, r, touched);
        from = r + 1;
    }
}

// Steps 1 and 2 for rows that are empty. The answer is the arcs of every symbol.
pub fn induced(table: &Table<'_>, rows: &mut [u64]) -> [u64; 32]
    requires room { 64 * tables.rules table.now.words.now ≤ length rows.old }
    requires empty { (j : ℕ) → j < 64 * tables.rules table.now.words.now → word rows.old j ≡ 0 }
    ensures { state.Stale table.now.words.now rows.old (tables.rules table.now.words.now) 0 rows.new result }
{
    let naming = name_rules(table);
    let mut ids = [0u64; 32];
    let stale = open_rules(table, &naming, rows, &mut ids);
    settle(table, &naming, rows, &mut ids, stale);
    ids
}
