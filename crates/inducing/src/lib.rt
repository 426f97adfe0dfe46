// The relations of a grammar's rules in lent rows, 64 words a rule: row o of rule r is word 64r + o, and its bit b says that a path
// leads from o to b. These are steps 1, 2 and 4 of 000, section 7.
#![tactic(auto)]

mod dp;
mod ids;

ghost use Rattle.std.specs.Prelude.{◌≡◌, ◌+◌, ◌*◌, ◌≤◌, ◌<◌, length};
ghost use Rattle.closing.specs.Rows.{Kept};
ghost use Rattle.inducing.specs.Cycles.{cycle_in};
ghost use Rattle.inducing.specs.Closes.{Grown, Closes, Joined, ArcAt, ArcOut};
ghost use Rattle.bits.specs.Bit as sets;
ghost use Rattle.basics.specs.Lists.{word, padded};
ghost use Rattle.grammar.specs.Table as tables;
ghost use Rattle.access.specs.ByPlace.{symbol_from};
ghost use Rattle.grammar.specs.Limits.{row_words};
ghost use Rattle.relations.specs.Computed.{ids_of};
ghost use Rattle.plans.specs.Buffers.{over, rows_of};
ghost use Rattle.plans.specs.Answer.{idp_paths};
ghost use Rattle.inducing.specs.Arcs as said;

use access::{Rule, Table};
use grammar::ROWS;

// The lowest-numbered rule, and in it the lowest occurrence, that lies on a cycle.
pub fn find_cycle(rows: &[u64], rules: usize) -> Option<(usize, usize)>
    requires { (rules ≤ 64) × (64 * rules ≤ length rows.now) }
    ensures { result ≡ cycle_in rows.now rules }
{
    let mut found = None;
    'search: for r in 0..rules {
        for o in 0..ROWS {
            if bits::has(rows[ROWS * r + o], o) {
                found = Some((r, o));
                break 'search;
            }
        }
    }
    found
}

// Of the arcs of a set, in which 8a + b is the arc from attribute a to attribute b, those from attribute a: where they lead at position i, as far
// as the row does not lead there already.
fn missing(row: u64, i: usize, arcs: u64, a: usize) -> u64
    requires { (i < 8) × (a < 8) }
    ensures { result ≡ sets.minus (sets.raised (8 * i) (sets.field (8 * a) arcs)) row }
{
    let targets = closing::moved(arcs, 8 * a, 8 * i);
    bits::minus(targets, row)
}

// Adds those with all that they lead on to, and puts the occurrence from which they start to a set, if there are any.
fn join_from(rows: &mut [u64; ROWS], i: usize, arcs: u64, a: usize, starts: u64) -> u64
    requires { (i < 8) × (a < 8) }
    ensures { Joined rows.old starts (ArcOut i arcs a) rows.new result }
{
    let o = 8 * i + a;
    let to = missing(rows[o], i, arcs, a);
    if to == 0 {
        return starts;
    }
    closing::extend_row(rows, o, to);
    bits::with(starts, o)
}

// The same for the arcs from every attribute, up to the highest that has some.
fn join_at(rows: &mut [u64; ROWS], i: usize, arcs: u64, starts: u64) -> u64
    requires { i < 8 }
    ensures { Joined rows.old starts (ArcAt i arcs) rows.new result }
{
    let mut more = starts;
    for a in 0..8usize {
        if arcs < bits::single(8 * a) {
            return more;
        }
        more = join_from(rows, i, arcs, a, more);
    }
    more
}

// The same at position i of a rule, for the arcs that the symbol there has.
fn join_symbol(
    rule: &Rule<'_>,
    i: usize,
    rows: &mut [u64; ROWS],
    arcs: &[u64; 32],
    starts: u64,
) -> u64
    requires i_bound { i ≤ tables.length_at rule.now.words.now rule.now.at }
    requires ruled { said.Ruled rule.now.words.now rule.now.at }
    ensures { Joined rows.old starts (ArcAt i (word arcs.now (symbol_from rule.now.words.now rule.now.at i))) rows.new result }
{
    let x = rule.symbol(i);
    join_at(rows, i, arcs[x], starts)
}

// The same at each of its positions.
fn join_symbols(rule: &Rule<'_>, rows: &mut [u64; ROWS], arcs: &[u64; 32]) -> u64
    requires ruled { said.Ruled rule.now.words.now rule.now.at }
    ensures { Joined rows.old 0 (said.SpreadArc rule.now.words.now rule.now.at arcs.now (tables.length_at rule.now.words.now rule.now.at + 1)) rows.new result }
{
    let n = rule.right_length();
    let mut starts = 0;
    for i in 0..n + 1 {
        starts = join_symbol(rule, i, rows, arcs, starts);
    }
    starts
}

// Adds to a closed rule the arcs that its symbols have, and closes it again: only over the occurrences from which new arcs start.
pub fn spread(rule: &Rule<'_>, rows: &mut [u64; ROWS], among: u64, arcs: &[u64; 32])
    requires ruled { said.Ruled rule.now.words.now rule.now.at }
    requires arcs_fit { said.ArcsFit rule.now.words.now rule.now.at among arcs.now }
    requires kept { Kept rows.old among }
    ensures { Closes rows.old among (said.SpreadArc rule.now.words.now rule.now.at arcs.now (tables.length_at rule.now.words.now rule.now.at + 1)) rows.new }
{
    let starts = join_symbols(rule, rows, arcs);
    closing::close(rows, among, starts);
}

// What a rule gets at first: DP, and the arcs that its symbols have so far.
fn add_first(rule: &Rule<'_>, rows: &mut [u64; ROWS], arcs: &[u64; 32])
    requires ruled { said.Ruled rule.now.words.now rule.now.at }
    requires functions_small { said.FunctionsSmall rule.now.words.now rule.now.at }
    ensures { Grown rows.old (said.OpeningArc rule.now.words.now rule.now.at arcs.now) rows.new }
{
    dp::mark_rule(rule, rows);
    join_symbols(rule, rows, arcs);
}

// Adds them and closes the rule, once for both and as a whole.
fn open(rule: &Rule<'_>, rows: &mut [u64; ROWS], among: u64, arcs: &[u64; 32])
    requires ruled { said.Ruled rule.now.words.now rule.now.at }
    requires functions_fit { said.FunctionsFit rule.now.words.now rule.now.at among }
    requires arcs_fit { said.ArcsFit rule.now.words.now rule.now.at among arcs.now }
    requires kept { Kept rows.old among }
    ensures { Closes rows.old among (said.OpeningArc rule.now.words.now rule.now.at arcs.now) rows.new }
{
    add_first(rule, rows, arcs);
    let middles = closing::inner(rows, among);
    closing::close(rows, among, middles);
}

// Steps 1 and 2: the rows get the paths of IDP, and the answer is IDS of every symbol.
pub fn induce(table: &Table<'_>, rows: &mut [u64]) -> [u64; 32]
    requires words_in_bounds { row_words (tables.rules table.now.words.now) ≤ length rows.old }
    ensures value { result ≡ padded 32 (ids_of table.now.words.now) }
    ensures rows_after { rows.new ≡ over (rows_of table.now.words.now (idp_paths table.now.words.now (ids_of table.now.words.now))) rows.old }
{
    rows[..ROWS * access::rules(table.words)].fill(0);
    ids::induced(table, rows)
}
