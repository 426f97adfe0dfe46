// EDP of every rule in lent rows: step 4 of 000, section 7. The arcs from higher sets to lower ones are made once for each symbol and
// then added at each position where it stands.
#![tactic(auto)]

ghost use Rattle.std.specs.Prelude.{◌≡◌, ◌+◌, ◌*◌, ◌≤◌, ◌<◌, length};
ghost use Rattle.bits.specs.Bit.{collect};
ghost use Rattle.grammar.specs.Limits.{row_words};
ghost use Rattle.grammar.specs.Table as tables;
ghost use Rattle.closing.specs.Rows.{Kept};
ghost use Rattle.inducing.specs.Rules.{occurrences_of, rule_rows, RuleCloses};
ghost use Rattle.relations.specs.Computed.{ids_of};
ghost use Rattle.sets.specs.Computed.{sets_of};
ghost use Rattle.plans.specs.Buffers.{over, rows_of};
ghost use Rattle.plans.specs.Answer.{idp_paths, edp_paths};
ghost use Rattle.extending.specs.Descents as spec;

use access::{Rule, Table};
use grammar::{ROWS, SET_WORDS};

// Whether arc k = 8a + b leads to a lower set. Past the count of attributes the set words are 0, which is no set.
fn descends(sets: &[u16; SET_WORDS], p: usize, count: usize, k: usize) -> bool
    requires { (p + 8 ≤ 256) × (k < 64) }
    ensures { result ≡ spec.descends sets.now p count k }
{
    let b = k % 8;
    if b < count {
        return sets[p + b] < sets[p + k / 8];
    }
    false
}

// The arcs that lead down between the attributes whose set numbers stand from word p on.
fn descents(sets: &[u16; SET_WORDS], p: usize, count: usize) -> u64
    requires { (p + 8 ≤ 256) × (count ≤ 8) }
    ensures { result ≡ collect (8 * count) (λ k. spec.descends sets.now p count k) }
{
    let mut arcs = 0;
    for k in 0..8 * count {
        let down = descends(sets, p, count, k);
        arcs = bits::put(arcs, k, down);
    }
    arcs
}

// Those of symbol x.
fn order_of(table: &Table<'_>, sets: &[u16; SET_WORDS], x: usize) -> u64
    requires { (x < 32) × (x < tables.symbols table.now.words.now) }
    ensures { result ≡ spec.descents_of table.now.words.now sets.now x }
{
    let count = access::attributes(table.words, x);
    descents(sets, 8 * x, count)
}

// Those of every symbol.
fn order(table: &Table<'_>, sets: &[u16; SET_WORDS]) -> [u64; 32]
    ensures { result ≡ spec.order_of table.now.words.now sets.now }
{
    let mut arcs = [0u64; 32];
    let symbols = access::symbols(table.words);
    for x in 0..symbols {
        arcs[x] = order_of(table, sets, x);
    }
    arcs
}

// Adds to the rows of rule r the arcs that lead down at its positions.
fn extend_rule(table: &Table<'_>, r: usize, arcs: &[u64; 32], rows: &mut [u64])
    requires inside { r < tables.rules table.now.words.now }
    requires arcs_value { arcs.now ≡ spec.order_of table.now.words.now (spec.numbers table.now.words.now) }
    requires kept { Kept (rule_rows rows.old r) (occurrences_of table.now.words.now r) }
    ensures { RuleCloses rows.old r (occurrences_of table.now.words.now r) (spec.Down table.now.words.now r) rows.new }
{
    let rule = Rule {
        words: table.words,
        at: table.rule_at(r),
    };
    let (_, later) = rows.split_at_mut(ROWS * r);
    let own = later.first_chunk_mut::<ROWS>().unwrap();
    inducing::spread(&rule, own, rule.occurrences(), arcs);
}

// Step 4: the rows, which hold the paths of IDP, get those of EDP.
pub fn extend(table: &Table<'_>, sets: &[u16; SET_WORDS], rows: &mut [u64])
    requires sets_value { sets.now ≡ sets_of table.now.words.now (ids_of table.now.words.now) }
    requires words_in_bounds { row_words (tables.rules table.now.words.now) ≤ length rows.old }
    requires rows_value { rows.old ≡ over (rows_of table.now.words.now (idp_paths table.now.words.now (ids_of table.now.words.now))) rows.old }
    ensures { rows.new ≡ over (rows_of table.now.words.now (edp_paths table.now.words.now (ids_of table.now.words.now) (sets_of table.now.words.now (ids_of table.now.words.now)))) rows.old }
{
    let arcs = order(table, sets);
    let count = access::rules(table.words);
    for r in 0..count {
        extend_rule(table, r, &arcs, rows);
    }
}
