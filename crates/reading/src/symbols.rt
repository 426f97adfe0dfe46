// What stands before the rules: the header, the symbols, and the class of the start symbol.
ghost use Rattle.std.specs.Prelude.{◌≡◌, ◌≤◌, ◌<◌, eqb};
ghost use Rattle.basics.specs.Tests.{◌and◌, ◌or◌};
ghost use Rattle.grammar.specs.Table as table;
ghost use Rattle.grammar.specs.Verdicts.{each};
ghost use Rattle.grammar.specs.Reading as reading;
ghost use Rattle.reading.specs.Parts as steps;

use super::words::{between, ranged, unless};
use grammar::MOST_RULES;
use refusals::Refusal;

// S, R and the start symbol.
fn header(words: &[u16]) -> Result<(), Refusal>
    ensures { result ≡ reading.header words.now }
{
    let symbols = access::symbols(words);
    ranged(words, 0, between(1, symbols, 32))?;
    ranged(words, 1, between(1, access::rules(words), MOST_RULES))?;
    ranged(words, 2, access::start(words) < symbols)
}

// The class of symbol x: a terminal inherits nothing.
fn symbol_class(words: &[u16], x: usize) -> bool
    requires { x < 65536 }
    ensures { result ≡ (table.nonterminal words.now x or eqb (table.mask words.now x) 0) }
{
    access::nonterminal(words, x) || access::mask(words, x) == 0
}

// The mask of symbol x, which has a bit for each attribute at most.
fn mask_fault(words: &[u16], x: usize) -> Result<(), Refusal>
    requires x_bound { x < 65536 }
    requires few { table.attributes words.now x ≤ 8 }
    ensures { result ≡ steps.mask_fault words.now x }
{
    let at = 3 + 3 * x + 2;
    let all = bits::single(access::attributes(words, x));
    ranged(words, at, access::inherited_set(words, x) < all)?;
    unless(symbol_class(words, x), Refusal::WrongClass(at))
}

// The three words of symbol x.
fn symbol_fault(words: &[u16], x: usize) -> Result<(), Refusal>
    requires { x < 65536 }
    ensures { result ≡ reading.symbol_fault words.now x }
{
    let at = 3 + 3 * x;
    ranged(words, at, access::kind(words, x) <= 1)?;
    ranged(words, at + 1, access::attributes(words, x) <= 8)?;
    mask_fault(words, x)
}

// Every symbol.
fn symbols_fault(words: &[u16], n: usize) -> Result<(), Refusal>
    requires { n < 65536 }
    ensures { result ≡ each n (λ x. reading.symbol_fault words.now x) }
{
    for x in 0..n {
        symbol_fault(words, x)?;
    }
    Ok(())
}

// The start symbol is a nonterminal with no inherited attribute.
fn starts(words: &[u16], x: usize) -> bool
    requires { x < 65536 }
    ensures { result ≡ (table.nonterminal words.now x and eqb (table.mask words.now x) 0) }
{
    access::nonterminal(words, x) && access::mask(words, x) == 0
}

fn start_class(words: &[u16]) -> Result<(), Refusal>
    ensures { result ≡ reading.start_class words.now }
{
    unless(starts(words, access::start(words)), Refusal::WrongClass(2))
}

// Everything before the rules.
pub fn opening_fault(words: &[u16]) -> Result<(), Refusal>
    ensures { result ≡ steps.opening_fault words.now }
{
    header(words)?;
    symbols_fault(words, access::symbols(words))?;
    start_class(words)
}
