// Sets of the numbers 0 to 63, each kept as the bits of one u64: i is a member where bit i is 1.
// What each function answers is the operation of specs/Bit.antt that bears its name.
#![tactic(auto)]

ghost use Rattle.std.specs.Prelude.{◌≡◌, cond, ◌≤◌, ◌<◌};
ghost use Rattle.std.specs.Iterator.{at_most};
ghost use Rattle.bits.specs.Bit as sets;
ghost use Rattle.bits.specs.End.{End};
ghost use Rattle.bits.specs.Next.{Next};

// Whether i is a member.
pub fn has(set: u64, i: usize) -> bool
    requires { i < 64 }
    ensures { result ≡ sets.hasb i set }
{
    (set >> i) & 1 == 1
}

// The set of i alone.
pub fn single(i: usize) -> u64
    requires { i < 64 }
    ensures { result ≡ sets.single i }
{
    1 << i
}

// The set of all numbers below n. A shift by the whole width is not one that the machine has.
pub fn below(n: usize) -> u64
    requires { n ≤ 64 }
    ensures { result ≡ sets.below n }
{
    if n < 64 {
        single(n) - 1
    } else {
        0xffff_ffff_ffff_ffff
    }
}

// The set with i as a member.
pub fn with(set: u64, i: usize) -> u64
    requires { i < 64 }
    ensures { result ≡ sets.insert i set }
{
    set | single(i)
}

// The set with i, if the test holds.
pub fn put(set: u64, i: usize, holds: bool) -> u64
    requires { i < 64 }
    ensures { result ≡ cond holds (sets.insert i set) set }
{
    if holds {
        return with(set, i);
    }
    set
}

// The set without i.
pub fn without(set: u64, i: usize) -> u64
    requires { i < 64 }
    ensures { result ≡ sets.remove i set }
{
    set & !single(i)
}

// The members of a or of b.
pub fn union(a: u64, b: u64) -> u64
    ensures { result ≡ sets.union a b }
{
    a | b
}

// The members of a and of b.
pub fn common(a: u64, b: u64) -> u64
    ensures { result ≡ sets.common a b }
{
    a & b
}

// The members of a that b lacks.
pub fn minus(a: u64, b: u64) -> u64
    ensures { result ≡ sets.minus a b }
{
    a & !b
}

// The eight places from number n on, as a set of numbers below 8.
pub fn field(set: u64, n: usize) -> u64
    requires { n ≤ 56 }
    ensures { result ≡ sets.field n set }
{
    (set >> n) % 256
}

// A set of numbers below 8 put to the places from n on.
pub fn raised(set: u64, n: usize) -> u64
    requires { (set < 256) × (n ≤ 56) }
    ensures { result ≡ sets.raised n set }
{
    set << n
}

// The lowest member, or 64 where there is none.
fn lowest(set: u64) -> usize
    ensures { result ≡ sets.lowest 64 set }
{
    set.trailing_zeros() as usize
}

// How many members the set has.
pub fn count(set: u64) -> usize
    ensures { result ≡ sets.count 64 set }
{
    set.count_ones() as usize
}

// The least number above all members.
pub fn end(set: u64) -> usize
    ensures { End set result }
{
    64 - set.leading_zeros() as usize
}

// The lowest member of a set that is not empty.
pub fn first(set: u64) -> usize
    requires { 0 < set }
    ensures { sets.First set result }
{
    lowest(set)
}

// A set that is not empty without its lowest member. One less turns that member off and the places below it on.
pub fn rest(set: u64) -> u64
    requires { 0 < set }
    ensures { result ≡ sets.remove (sets.lowest 64 set) set }
{
    set & (set - 1)
}

// The members of a set, lowest first; `left` has those that did not come yet.
#[derive(Drop)]
pub struct LowestFirst {
    left: u64,
}

impl Iterator for LowestFirst {
    type Item = usize;

    ghost next_gives = { λ s r t. Next s.left r t.left };

    ghost remaining = { λ s. at_most s.left };

    fn next(&mut self) -> Option<usize> {
        if self.left == 0 {
            return None;
        }
        let a = first(self.left);
        self.left = rest(self.left);
        Some(a)
    }
}

// What a `for` goes over.
pub fn members(set: u64) -> LowestFirst
    ensures { result.left ≡ set }
{
    LowestFirst { left: set }
}
