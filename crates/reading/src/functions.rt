// The functions of a rule. A function has six words at most: where they are all there it is tested as a whole, with no test of an end.
// Only where that fails, or at the end of the table, is it looked at word by word, for the place of its first fault.
ghost use Rattle.std.specs.Prelude.{◌≡◌, ◌+◌, ◌≤◌, ◌<◌, length};
ghost use Rattle.bits.specs.Bit as bit;
ghost use Rattle.basics.specs.Tests.{◌and◌, ◌or◌};
ghost use Rattle.grammar.specs.Table as table;
ghost use Rattle.access.specs.ByPlace as places;
ghost use Rattle.reading.specs.Parts as steps;

use super::words::{member, present, ranged, unless};
use access::Rule;
use refusals::Refusal;

// Whether four words are all occurrences: each is below 64, and the set of them has nothing that the occurrences lack.
fn four_occur(occurrences: u64, a: usize, b: usize, c: usize, d: usize) -> bool
    ensures { result ≡ steps.four_occur occurrences a b c d }
{
    if a >= 64 {
        return false;
    }
    if b >= 64 {
        return false;
    }
    if c >= 64 {
        return false;
    }
    if d >= 64 {
        return false;
    }
    let four = bits::with(bits::with(bits::with(bits::single(a), b), c), d);
    bits::minus(four, occurrences) == 0
}

// How many words the function at word f has, of six words that are there, where its operation and its arguments pass.
// Each number of words is answered in a branch of its own, so that the next function's place need not wait for the operation to be read.
// An operation of fewer than four arguments has some of them tested twice.
fn operand_words(words: &[u16], f: usize, occurrences: u64) -> Option<usize>
    requires { f + 6 ≤ length words.now }
    ensures { result ≡ steps.words_if (steps.operands_fault words.now f occurrences) (steps.function_words words.now f) }
{
    let op = access::known(words, f + 1);
    let a = access::known(words, f + 2);
    let b = access::known(words, f + 3);
    let c = access::known(words, f + 4);
    let d = access::known(words, f + 5);
    if op == 8 {
        return four_occur(occurrences, a, b, c, d).then_some(6);
    }
    if op == 7 {
        return four_occur(occurrences, a, b, c, c).then_some(5);
    }
    if op > 8 {
        return None;
    }
    if op >= 2 {
        return four_occur(occurrences, a, b, a, b).then_some(4);
    }
    if op == 1 {
        return four_occur(occurrences, a, a, a, a).then_some(3);
    }
    Some(3)
}

// Whether a target is an occurrence that a function may define.
fn may_define(occurrences: u64, undefined: u64, target: usize) -> bool
    ensures { result ≡ (bit.hasb target occurrences and bit.hasb target undefined) }
{
    member(occurrences, target) && member(undefined, target)
}

// How many words the function at word f has, of six words that are there, where it passes.
fn function_words(words: &[u16], f: usize, occurrences: u64, undefined: u64) -> Option<usize>
    requires { f + 6 ≤ length words.now }
    ensures { result ≡ steps.words_if (places.function_from words.now f occurrences undefined) (steps.function_words words.now f) }
{
    if !may_define(occurrences, undefined, access::known(words, f)) {
        return None;
    }
    operand_words(words, f, occurrences)
}

// Whether an argument word is a constant or an occurrence.
fn argument_fits(constant: bool, occurrences: u64, o: usize) -> bool
    ensures { result ≡ (constant or bit.hasb o occurrences) }
{
    constant || member(occurrences, o)
}

// The argument word at q.
fn argument_fault(words: &[u16], q: usize, constant: bool, occurrences: u64) -> Result<(), Refusal>
    ensures { result ≡ places.argument_from words.now q constant occurrences }
{
    present(words, q)?;
    unless(
        argument_fits(constant, occurrences, access::word(words, q)),
        Refusal::NoOccurrence(q),
    )
}

// The argument words of the function at word f.
fn arguments_fault(words: &[u16], f: usize, occurrences: u64) -> Result<(), Refusal>
    requires { f < 1000000 }
    ensures { result ≡ places.arguments_from words.now f occurrences }
{
    let op = access::word(words, f + 1);
    let n = access::argument_words(op);
    for j in 0..n {
        argument_fault(words, f + 2 + j, op == 0, occurrences)?;
    }
    Ok(())
}

// What follows the target of the function at word f.
fn operands_fault(words: &[u16], f: usize, occurrences: u64) -> Result<(), Refusal>
    requires { f < 1000000 }
    ensures { result ≡ steps.operands_fault words.now f occurrences }
{
    ranged(words, f + 1, access::word(words, f + 1) <= 8)?;
    arguments_fault(words, f, occurrences)
}

// The target of the function at word f: 4 before 5.
fn target_fault(f: usize, target: usize, occurrences: u64, undefined: u64) -> Result<(), Refusal>
    ensures { result ≡ steps.target_fault f target occurrences undefined }
{
    unless(member(occurrences, target), Refusal::NoOccurrence(f))?;
    unless(member(undefined, target), Refusal::NotDefining(f))
}

// The function at word f, word by word.
fn word_by_word(words: &[u16], f: usize, occurrences: u64, undefined: u64) -> Result<(), Refusal>
    requires { f < 1000000 }
    ensures { result ≡ places.function_from words.now f occurrences undefined }
{
    present(words, f)?;
    target_fault(f, access::word(words, f), occurrences, undefined)?;
    operands_fault(words, f, occurrences)
}

// How many words the function at word f has, where the defining occurrences in `undefined` have no function yet.
fn function_size(
    words: &[u16],
    f: usize,
    occurrences: u64,
    undefined: u64,
) -> Result<usize, Refusal>
    requires { f < 1000000 }
    ensures { steps.FunctionRead words.now f occurrences undefined result }
{
    if f + 6 <= words.len() {
        if let Some(whole) = function_words(words, f, occurrences, undefined) {
            return Ok(whole);
        }
    }
    word_by_word(words, f, occurrences, undefined)?;
    Ok(2 + access::argument_words(access::known(words, f + 1)))
}

// What reading a rule hands on: where the next one starts, and the defining occurrences that got no function.
#[derive(Clone, Copy)]
pub struct RuleEnd {
    pub next: usize,
    pub undefined: u64,
}

// The functions of a rule.
pub fn read_functions(rule: &Rule<'_>, occurrences: u64, defining: u64) -> Result<RuleEnd, Refusal>
    requires { table.functions_at rule.now.words.now rule.now.at ≤ 64 }
    ensures { steps.FunctionsRead rule.now.words.now rule.now.at occurrences defining result }
{
    let words = rule.words;
    let count = rule.function_count();
    let mut f = rule.first_function();
    let mut undefined = defining;
    for _ in 0..count {
        let size = function_size(words, f, occurrences, undefined)?;
        undefined = bits::without(undefined, access::known(words, f));
        f += size;
    }
    Ok(RuleEnd { next: f, undefined })
}
