// The sets of each nonterminal, set after set from the end (000, section 7, step 3), with attributes as bits.
#![tactic(auto)]

ghost use Rattle.std.specs.Prelude.{◌≡◌, ◌+◌, ◌*◌, ◌≤◌, ◌<◌, length};
ghost use Rattle.grammar.specs.Limits as limits;
ghost use Rattle.grammar.specs.Reading.{read_table};
ghost use Rattle.grammar.specs.Verdicts.{Good};
ghost use Rattle.grammar.specs.WellFormed.{SymbolFormed};
ghost use Rattle.sets.specs.Computed.{sets_of};
ghost use Rattle.placing.specs.SymbolSets as masks;

use grammar::SET_WORDS;

// All unplaced successors of attribute a are of the class.
fn stays(arcs: u64, unplaced: u64, class: u64, a: usize) -> bool
    requires { a < 8 }
    ensures { result ≡ masks.stays arcs unplaced class a }
{
    bits::minus(bits::common(bits::field(arcs, 8 * a), unplaced), class) == 0
}

// What a set takes.
fn taken_from(arcs: u64, unplaced: u64, class: u64) -> u64
    requires { unplaced < 256 }
    ensures { result ≡ masks.taken_from arcs unplaced class }
{
    let mut taken = 0;
    for a in bits::members(bits::common(unplaced, class)) {
        taken = bits::put(taken, a, stays(arcs, unplaced, class, a));
    }
    taken
}

// Gives the attributes of a set its number.
fn number_set(sets: &mut [u16], at: usize, taken: u64, k: u16)
    requires { (at + 8 ≤ length sets.old) × (taken < 256) }
    ensures { sets.new ≡ masks.numbered sets.old at taken k }
{
    for a in bits::members(taken) {
        sets[at + a] = k;
    }
}

// Odd sets hold synthesized attributes, even sets inherited.
fn class_of(every: u64, inherited: u64, k: u16) -> u64
    ensures { result ≡ masks.class_of every inherited k }
{
    if k % 2 == 1 {
        return bits::minus(every, inherited);
    }
    inherited
}

// The nine sets of one symbol, whose words stand from `at` on. Never put inline: woven into the code of a whole planning, the walks over members would
// slow by a tenth the closing that comes before them there.
#[inline(never)]
fn place_symbol(sets: &mut [u16], at: usize, every: u64, inherited: u64, arcs: u64)
    requires { (at + 8 ≤ length sets.old) × (every < 256) }
    ensures { sets.new ≡ masks.numbered_to sets.old at every inherited arcs 9 }
{
    let mut left = every;
    for k in 0..9u16 {
        let taken = taken_from(arcs, left, class_of(every, inherited, k + 1));
        number_set(sets, at, taken, k + 1);
        left = bits::minus(left, taken);
    }
}

// The sets of symbol x, which is a nonterminal.
fn place_attributes(words: &[u16], x: usize, arcs: u64, sets: &mut [u16])
    requires symbol_formed { SymbolFormed words.now x }
    requires x_bound { x < 32 }
    requires sets_len { length sets.old ≡ limits.set_words }
    ensures { sets.new ≡ masks.placed_attributes words.now x arcs sets.old }
{
    let every = bits::below(access::attributes(words, x));
    let inherited = access::inherited_set(words, x);
    place_symbol(sets, 8 * x, every, inherited, arcs);
}

// The sets of symbol x, if it is one.
fn place_nonterminal(words: &[u16], x: usize, arcs: u64, sets: &mut [u16])
    requires symbol_formed { SymbolFormed words.now x }
    requires x_bound { x < 32 }
    requires sets_len { length sets.old ≡ limits.set_words }
    ensures { sets.new ≡ masks.placed_nonterminal words.now x arcs sets.old }
{
    if access::nonterminal(words, x) {
        place_attributes(words, x, arcs, sets);
        return;
    }
}

// The set words of a plan, of a table that is accepted and its IDS.
pub fn sets_of(words: &[u16], ids: &[u64; 32]) -> [u16; SET_WORDS]
    requires { read_table words.now ≡ Good }
    ensures { result ≡ sets_of words.now ids.now }
{
    let mut sets = [0u16; SET_WORDS];
    for x in 0..access::symbols(words) {
        place_nonterminal(words, x, ids[x], &mut sets);
    }
    sets
}
