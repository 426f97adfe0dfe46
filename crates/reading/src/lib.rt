// Reading a grammar table: refusals 1 to 7, in one walk over the words.
// `words` tests single words, `symbols` what stands before the rules, `functions` and `rules` the rest; a rule and a function are handed on as the word
// they start at, and specs/ByPlace.antt of access says the tests of each by that word.
#![tactic(auto)]

ghost use Rattle.std.specs.Prelude.{◌≡◌};
ghost use Rattle.grammar.specs.Verdicts.{Good};
ghost use Rattle.reading.specs.Parts as steps;

use access::Table;
use grammar::{MOST_RULES, Offsets};
use refusals::Refusal;
use rules::{ending_fault, read_rule};
use symbols::opening_fault;

mod functions;
mod rules;
mod symbols;
mod words;

// The rules, where everything before them passed, and the word at which each of them starts.
fn read_rules(words: &[u16]) -> Result<Offsets, Refusal>
    requires { steps.opening_fault words.now ≡ Good }
    ensures { steps.RulesRead words.now result }
{
    let mut offsets = [0u16; MOST_RULES];
    let mut p = 3 + 3 * access::symbols(words);
    let mut undefined: u64 = 0;
    for r in 0..access::rules(words) {
        let rule = read_rule(words, p, undefined)?;
        offsets[r] = p as u16;
        p = rule.next;
        undefined = rule.undefined;
    }
    ending_fault(words, p, undefined)?;
    Ok(offsets)
}

// Reads the words of a table in one walk. An offset is kept for each rule, so that later code need not look for it.
pub fn read(words: &[u16]) -> Result<Table<'_>, Refusal>
    ensures { steps.TableRead words.now result }
{
    opening_fault(words)?;
    let offsets = read_rules(words)?;
    Ok(Table { words, offsets })
}
