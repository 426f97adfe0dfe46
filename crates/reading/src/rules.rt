// The rules of a table. A rule is handed on as the word it starts at.
ghost use Rattle.std.specs.Prelude.{◌≡◌, ◌<◌, eqb};
ghost use Rattle.basics.specs.Lists.{word};
ghost use Rattle.refusals.specs.declared.Refusal.TheVariants as refusal;
ghost use Rattle.grammar.specs.Table as table;
ghost use Rattle.grammar.specs.Verdicts.{unless};
ghost use Rattle.access.specs.ByPlace as places;
ghost use Rattle.reading.specs.Parts as steps;

use super::functions::{RuleEnd, read_functions};
use super::words::{ranged, unless};
use access::Rule;
use refusals::Refusal;

// The left symbol of the rule at word p.
fn left_fault(words: &[u16], p: usize) -> Result<(), Refusal>
    ensures { result ≡ places.left_from words.now p }
{
    let left = access::word(words, p);
    ranged(words, p, left < access::symbols(words))?;
    unless(access::nonterminal(words, left), Refusal::WrongClass(p))
}

// n symbols of a right side, from word p on.
fn right_fault(words: &[u16], p: usize, n: usize) -> Result<(), Refusal>
    requires p_bound { p < 1000000 }
    requires n_bound { n < 65536 }
    ensures { result ≡ steps.right_fault words.now p n }
{
    let symbols = access::symbols(words);
    for i in 0..n {
        ranged(words, p + i, access::word(words, p + i) < symbols)?;
    }
    Ok(())
}

// The right side of a rule, and the number of its functions.
fn shape_fault(rule: &Rule<'_>) -> Result<(), Refusal>
    ensures { result ≡ steps.shape_fault rule.now.words.now rule.now.at }
{
    let words = rule.words;
    let p = rule.at;
    let n = rule.right_length();
    ranged(words, p + 1, n <= 7)?;
    right_fault(words, p + 2, n)?;
    ranged(words, p + 2 + n, rule.function_count() <= 64)
}

// What follows the left symbol of a rule. Once its symbols are known to be well formed, its sets can be made.
fn read_body(rule: &Rule<'_>) -> Result<RuleEnd, Refusal>
    requires symbols { places.Symbols rule.now.words.now }
    requires left_small { word rule.now.words.now rule.now.at < table.symbols rule.now.words.now }
    ensures { steps.RuleRead rule.now.words.now rule.now.at (places.body_from rule.now.words.now rule.now.at) result }
{
    shape_fault(rule)?;
    read_functions(rule, rule.occurrences(), rule.definings())
}

// 6: the rule before the one at word p left no defining occurrence without a function.
fn rule_before(undefined: u64, p: usize) -> Result<(), Refusal>
    ensures { result ≡ unless (eqb undefined 0) (refusal.Undefined p) }
{
    unless(undefined == 0, Refusal::Undefined(p))
}

// The rule at word p. At its first word its own faults go before 6 of the rule before.
pub fn read_rule(words: &[u16], p: usize, undefined: u64) -> Result<RuleEnd, Refusal>
    requires p_bound { p < 65536 }
    requires symbols { places.Symbols words.now }
    ensures { steps.RuleRead words.now p (places.rule_from words.now p undefined) result }
{
    left_fault(words, p)?;
    rule_before(undefined, p)?;
    read_body(&Rule { words, at: p })
}

// The end of the rules, at word p: 6 where the last one is not complete, 7 where words are left over.
pub fn ending_fault(words: &[u16], p: usize, undefined: u64) -> Result<(), Refusal>
    ensures { result ≡ steps.ending_fault words.now p undefined }
{
    rule_before(undefined, p)?;
    unless(words.len() <= p, Refusal::LeftOver(p))
}
