// The tests of single words. Each refuses with a number and a place, and a word that is missing is refused before what it should hold.
ghost use Rattle.std.specs.Prelude.{◌≡◌, ◌<◌, leb};
ghost use Rattle.bits.specs.Bit as bit;
ghost use Rattle.basics.specs.Tests.{◌and◌};
ghost use Rattle.grammar.specs.Verdicts.{unless};
ghost use Rattle.grammar.specs.Reading as reading;

use refusals::Refusal;

// Whether o is a member of the set, for any number o.
pub fn member(set: u64, o: usize) -> bool
    ensures { result ≡ bit.hasb o set }
{
    o < 64 && bits::has(set, o)
}

// x lies between two ends.
pub fn between(low: usize, x: usize, high: usize) -> bool
    ensures { result ≡ (leb low x and leb x high) }
{
    low <= x && x <= high
}

// Refused where a test fails.
pub fn unless(test: bool, refusal: Refusal) -> Result<(), Refusal>
    ensures { result ≡ unless test refusal }
{
    if test { Ok(()) } else { Err(refusal) }
}

// 1: the word is there.
pub fn present(words: &[u16], p: usize) -> Result<(), Refusal>
    ensures { result ≡ reading.present words.now p }
{
    unless(p < words.len(), Refusal::EndsEarly(p))
}

// 2: the word is there and in its range.
pub fn ranged(words: &[u16], p: usize, test: bool) -> Result<(), Refusal>
    ensures { result ≡ reading.ranged words.now p test }
{
    present(words, p)?;
    unless(test, Refusal::OutOfRange(p))
}
