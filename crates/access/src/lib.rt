// The words of a grammar table by symbol, rule and function.
// A rule is handed on with the word that it starts at, a function as that word; specs/ByPlace.antt says what each is by it.
#![tactic(auto)]

ghost use Rattle.std.specs.Prelude.{◌≡◌, ◌+◌, ◌*◌, ◌^◌, ◌≤◌, ◌<◌, length, get_or};
ghost use Rattle.bits.specs.Bit as bit;
ghost use Rattle.basics.specs.Lists.{word};
ghost use Rattle.grammar.specs.Limits.{most_rules};
ghost use Rattle.grammar.specs.Reading.{read_table};
ghost use Rattle.grammar.specs.Table as table;
ghost use Rattle.grammar.specs.Verdicts.{Good};
ghost use Rattle.access.specs.ByPlace as places;
ghost use Rattle.access.specs.Offsets.{offsets_for};

use grammar::Offsets;

// A table that reading accepted, with the word at which each of its rules starts: later code need not look for it, nor test the words again.
#[derive(Clone, Copy)]
pub struct Table<'a> {
    pub words: &'a [u16],
    pub offsets: Offsets,
    ghost accepted: { read_table words.now ≡ Good },
    ghost placed: { offsets ≡ offsets_for words.now Good },
}

impl Table<'_> {
    // The word at which rule r starts.
    pub fn rule_at(&self, r: usize) -> usize
        requires { r < most_rules }
        ensures { result ≡ get_or self.now.offsets r 0 }
    {
        rule_at(&self.offsets, r)
    }
}

// The rule that starts at word `at` of a table's words.
#[derive(Clone, Copy)]
pub struct Rule<'a> {
    pub words: &'a [u16],
    pub at: usize,
    ghost near: { at < 65536 },
}

impl Rule<'_> {
    // Its right length.
    pub fn right_length(&self) -> usize
        ensures value { result ≡ table.length_at self.now.words.now self.now.at }
        ensures upper_bound { result < 65536 }
    {
        word(self.words, self.at + 1)
    }

    // The symbol at a position: 0 is the left side.
    pub fn symbol(&self, i: usize) -> usize
        requires { i < 65536 }
        ensures value { result ≡ places.symbol_from self.now.words.now self.now.at i }
        ensures upper_bound { result < 65536 }
    {
        if i == 0 {
            return word(self.words, self.at);
        }
        word(self.words, self.at + 1 + i)
    }

    // How many functions it has, and where the first one starts.
    pub fn function_count(&self) -> usize
        ensures value { result ≡ table.functions_at self.now.words.now self.now.at }
        ensures upper_bound { result < 65536 }
    {
        word(self.words, self.at + 2 + self.right_length())
    }

    pub fn first_function(&self) -> usize
        ensures value { result ≡ table.function_at self.now.words.now self.now.at 0 }
        ensures upper_bound { result < 131075 }
    {
        self.at + 3 + self.right_length()
    }

    // Its occurrences, as a set.
    pub fn occurrences(&self) -> u64
        requires { places.Shaped self.now.words.now self.now.at }
        ensures { result ≡ places.occurrences_at self.now.words.now self.now.at }
    {
        let n = self.right_length();
        let mut set = attribute_set(self.words, word(self.words, self.at));
        for i in 0..n {
            let block = attribute_set(self.words, word(self.words, self.at + 2 + i));
            set = bits::union(placed(block, i + 1), set);
        }
        set
    }

    // Its defining occurrences: synthesized on the left side, inherited on the right.
    pub fn definings(&self) -> u64
        requires { places.Shaped self.now.words.now self.now.at }
        ensures { result ≡ places.definings_at self.now.words.now self.now.at }
    {
        let n = self.right_length();
        let left = word(self.words, self.at);
        let mut set = bits::minus(
            attribute_set(self.words, left),
            inherited_set(self.words, left),
        );
        for i in 0..n {
            let block = inherited_set(self.words, word(self.words, self.at + 2 + i));
            set = bits::union(placed(block, i + 1), set);
        }
        set
    }
}

// The word at a place, 0 past the end.
pub fn word(words: &[u16], p: usize) -> usize
    ensures value { result ≡ get_or words.now p 0 }
    ensures upper_bound { result < 65536 }
{
    if p < words.len() {
        return usize::from(words[p]);
    }
    0
}

// The word at a place that is there. The code that runs once a table or a tree is accepted knows its length, and tests it no more.
pub fn known(words: &[u16], p: usize) -> usize
    requires { p < length words.now }
    ensures value { result ≡ get_or words.now p 0 }
    ensures upper_bound { result < 65536 }
{
    usize::from(words[p])
}

// How many symbols and rules the table has, and its start symbol.
pub fn symbols(words: &[u16]) -> usize
    ensures value { result ≡ table.symbols words.now }
    ensures upper_bound { result < 65536 }
{
    word(words, 0)
}

pub fn rules(words: &[u16]) -> usize
    ensures value { result ≡ table.rules words.now }
    ensures upper_bound { result < 65536 }
{
    word(words, 1)
}

pub fn start(words: &[u16]) -> usize
    ensures value { result ≡ table.start words.now }
    ensures upper_bound { result < 65536 }
{
    word(words, 2)
}

// The three words of a symbol.
pub fn kind(words: &[u16], x: usize) -> usize
    requires { x < 65536 }
    ensures value { result ≡ table.kind words.now x }
    ensures upper_bound { result < 65536 }
{
    word(words, 3 + 3 * x)
}

pub fn attributes(words: &[u16], x: usize) -> usize
    requires { x < 65536 }
    ensures value { result ≡ table.attributes words.now x }
    ensures upper_bound { result < 65536 }
{
    word(words, 3 + 3 * x + 1)
}

pub fn mask(words: &[u16], x: usize) -> usize
    requires { x < 65536 }
    ensures value { result ≡ table.mask words.now x }
    ensures upper_bound { result < 65536 }
{
    word(words, 3 + 3 * x + 2)
}

pub fn nonterminal(words: &[u16], x: usize) -> bool
    requires { x < 65536 }
    ensures { result ≡ table.nonterminal words.now x }
{
    kind(words, x) == 0
}

// The word at which rule r starts, by the offsets that reading hands on.
pub fn rule_at(offsets: &Offsets, r: usize) -> usize
    requires { r < most_rules }
    ensures { result ≡ get_or offsets.now r 0 }
{
    usize::from(offsets[r])
}

// How many argument words an operation has.
pub fn argument_words(op: usize) -> usize
    ensures value { result ≡ table.argument_words op }
    ensures upper_bound { result ≤ 4 }
{
    if op <= 1 {
        return 1;
    }
    if op <= 6 {
        return 2;
    }
    if op == 7 {
        return 3;
    }
    4
}

// Where the function after the one at word f starts.
pub fn next_function(words: &[u16], f: usize) -> usize
    requires { f < 1000000 }
    ensures value { result ≡ places.next_function words.now f }
    ensures upper_bound { result ≤ f + 6 }
{
    f + 2 + argument_words(word(words, f + 1))
}

// A symbol's attributes as bits of the position that they stand at.
fn placed(attributes: u64, i: usize) -> u64
    requires attributes_bound { attributes < 256 }
    requires i_bound { i < 8 }
    ensures { result ≡ attributes * 2 ^ (8 * i) }
{
    attributes << (8 * i)
}

// All attributes of a symbol, as a set.
fn attribute_set(words: &[u16], x: usize) -> u64
    requires x_bound { x < 65536 }
    requires few_attributes { table.attributes words.now x ≤ 8 }
    ensures { result ≡ bit.below (table.attributes words.now x) }
{
    bits::below(attributes(words, x))
}

// Its inherited ones, which the rules that have it on the right define.
pub fn inherited_set(words: &[u16], x: usize) -> u64
    requires { x < 65536 }
    ensures { result ≡ table.mask words.now x }
{
    mask(words, x) as u64
}
