// The listing as text in a lent buffer: what does not fit is left out.
#![tactic(auto)]

ghost use Rattle.std.specs.Prelude.{◌≡◌, [], ◌∷◌, ◌+◌, ◌*◌, ◌/◌, ◌≤◌, ◌<◌, length};
ghost use Rattle.plans.specs.Buffers.{over};
ghost use Rattle.text.specs.Lines as lines;
ghost use Rattle.text.specs.Listing as listing;
ghost use Rattle.lister.specs.Shown as shown;

use grammar::{MOST_RULES, ROWS, RULE_WORDS, SET_WORDS};
use refusals::Refusal;

// "looks at the first 65,536 bytes"
pub const MOST_BYTES: usize = 65536;

// No listing is longer than this, so whoever lends so many bytes is shown all of it.
pub const LENT_BYTES: usize = 32768;

// The lent buffer that a text is typed into, and the place of the next byte.
#[derive(Drop)]
struct Page<'a> {
    out: &'a mut [u8],
    at: usize,
}

impl Page<'_> {
    // One byte.
    fn put(&mut self, b: u8)
        ensures { shown.Types self.old (b ∷ []) self.new }
    {
        if self.at < self.out.len() {
            self.out[self.at] = b;
            self.at += 1;
        }
    }

    // The bytes of a word.
    fn word(&mut self, word: &[u8])
        ensures { shown.Types self.old word.now self.new }
    {
        for &b in word {
            self.put(b);
        }
    }

    // A number in decimal.
    fn decimal(&mut self, n: usize)
        ensures { shown.Types self.old (lines.decimal n) self.new }
    {
        if n >= 10 {
            self.decimal(n / 10);
        }
        self.put(b'0' + (n % 10) as u8);
    }

    // A blank and a number.
    fn number(&mut self, n: usize)
        ensures { shown.Types self.old (32 ∷ lines.decimal n) self.new }
    {
        self.put(b' ');
        self.decimal(n);
    }

    // "A refusal prints `refused` and three numbers: number, place, second place."
    fn refusal_line(&mut self, refusal: Refusal)
        ensures { shown.Types self.old (listing.refusal_line refusal) self.new }
    {
        self.word(b"refused");
        self.number(refusal.number());
        self.number(refusal.place());
        self.number(refusal.second_place());
        self.put(b'\n');
    }

    // "The first line is symbols, rules."
    fn first_line(&mut self, words: &[u16])
        ensures { shown.Types self.old (listing.first_line words.now) self.new }
    {
        self.word(b"plan");
        self.number(access::symbols(words));
        self.number(access::rules(words));
        self.put(b'\n');
    }

    // "An `s` line is symbol, visits, the set of each attribute."
    fn symbol_line(&mut self, words: &[u16], plan: &[u16], x: usize)
        requires { x < 65536 }
        ensures { shown.Types self.old (listing.symbol_line words.now plan.now x) self.new }
    {
        if !access::nonterminal(words, x) {
            return;
        }
        self.put(b's');
        self.number(x);
        self.number(remaining::visits_of(plan, x));
        for a in 0..access::attributes(words, x) {
            self.number(access::word(plan, 8 * x + a));
        }
        self.put(b'\n');
    }

    // "An `r` line is rule, actions."
    fn rule_line(&mut self, plan: &[u16], r: usize)
        requires { r < 65536 }
        ensures { shown.Types self.old (shown.rule_line_of plan.now r) self.new }
    {
        let from = SET_WORDS + RULE_WORDS * r;
        self.put(b'r');
        self.number(r);
        for j in 0..access::word(plan, from) {
            self.number(access::word(plan, from + 1 + j));
        }
        self.put(b'\n');
    }

    // The lines of a plan.
    fn plan_lines(&mut self, words: &[u16], plan: &[u16])
        ensures { shown.Types self.old (shown.plan_lines words.now plan.now) self.new }
    {
        self.first_line(words);
        for x in 0..access::symbols(words) {
            self.symbol_line(words, plan, x);
        }
        for r in 0..access::rules(words) {
            self.rule_line(plan, r);
        }
    }

    // The listing of a table.
    fn list_table(&mut self, words: &[u16])
        ensures { shown.Types self.old (listing.table_text words.now) self.new }
    {
        let mut rows = [0u64; ROWS * MOST_RULES];
        let mut plan = [0u16; SET_WORDS + RULE_WORDS * MOST_RULES];
        match planner::plan(words, &mut rows, &mut plan) {
            Ok(_) => self.plan_lines(words, &plan),
            Err(refusal) => self.refusal_line(refusal),
        }
    }

    // "An odd count of bytes looked at prints `refused 1 w 0`, w the whole words, before anything else."
    fn list_bytes(&mut self, bytes: &[u8])
        requires { length bytes.now ≤ listing.most_bytes }
        ensures { shown.Types self.old (listing.bytes_text bytes.now) self.new }
    {
        let whole = bytes.len() / 2;
        if bytes.len() % 2 != 0 {
            return self.refusal_line(Refusal::EndsEarly(whole));
        }
        let mut words = [0u16; MOST_BYTES / 2];
        little_endian(bytes, &mut words);
        self.list_table(&words[..whole])
    }
}

// "little-endian words"
fn little_endian(bytes: &[u8], words: &mut [u16])
    requires { length bytes.now / 2 ≤ length words.old }
    ensures { words.new ≡ over (listing.words_of bytes.now) words.old }
{
    for (i, pair) in bytes.chunks_exact(2).enumerate() {
        words[i] = u16::from_le_bytes([pair[0], pair[1]]);
    }
}

// The listing of what stands in the input.
pub fn list(input: &[u8], out: &mut [u8]) -> usize
    ensures { shown.Shows out.old (listing.listing input.now) out.new result }
{
    let n = input.len().min(MOST_BYTES);
    let mut page = Page { out, at: 0 };
    page.list_bytes(&input[..n]);
    page.at
}
