// What is left of one rule's visit-sequence (000, section 6.3), whoever orders its actions: what is left before the first action, which
// visit is ready, and what is left after an action. Three sets hold the actions, a fourth the occurrences that wait to be made available.
#![tactic(auto)]

ghost use Rattle.std.specs.Prelude.{◌≡◌, ◌+◌, ◌*◌, ◌-◌, ◌/◌, ◌%◌, ◌≤◌, ◌<◌};
ghost use Rattle.bits.specs.Bit as bit;
ghost use Rattle.grammar.specs.Limits as limits;
ghost use Rattle.grammar.specs.Table as table;
ghost use Rattle.access.specs.ByPlace as places;
ghost use Rattle.sets.specs.Visits as visiting;
ghost use Rattle.remaining.specs.RuleSets as masks;
ghost use Rattle.remaining.specs.Remaining as spec;

use access::Rule;

// What is kept of each symbol x by visit: its inherited attributes, those of visit n from bit 8 (n - 1) on, its synthesized ones in the same way,
// and its visits.
#[derive(Clone, Copy)]
pub struct ByVisit {
    pub inherited: [u64; 32],
    pub synthesized: [u64; 32],
    pub visits: [u64; 32],
}

// An action: a compute by its occurrence, visit n of child i as 8i + (n - 1), leave n as n - 1.
#[derive(Clone, Copy)]
pub enum Action {
    Compute(usize),
    Visit(usize),
    Leave(usize),
}

impl Action {
    // The word that a plan has for it.
    pub fn word(self) -> u16
        requires { spec.number self < 65536 }
        ensures { result ≡ spec.number self }
    {
        match self {
            Action::Compute(o) => o as u16,
            Action::Visit(b) => (64 + b) as u16,
            Action::Leave(b) => (128 + b) as u16,
        }
    }
}

// The actions that are left, as bits.
// An occurrence waits while an action that makes it available is left; wanted is what the next visit of each child takes along.
#[derive(Clone, Copy)]
pub struct State {
    pub computes: u64,
    pub visits: u64,
    pub leaves: u64,
    pub waiting: u64,
    pub wanted: u64,
}

// An action, and what is left after it.
#[derive(Clone, Copy)]
pub struct Step {
    pub action: Action,
    pub state: State,
}

// The last set of symbol x.
fn last_set(sets: &[u16], x: usize) -> usize
    requires { x < 65536 }
    ensures value { result ≡ visiting.last_set sets.now x }
    ensures upper_bound { result < 65536 }
{
    let mut last = 0;
    for a in 0..8usize {
        last = last.max(access::word(sets, 8 * x + a));
    }
    last
}

// How many visits symbol x has.
pub fn visits_of(sets: &[u16], x: usize) -> usize
    requires { x < 65536 }
    ensures value { result ≡ visiting.visits sets.now x }
    ensures upper_bound { result < 65536 }
{
    ((last_set(sets, x) + 1) / 2).max(1)
}

// The attributes of symbol x whose sets are of one parity, even (0) or odd (1): those of visit n have the places from 8 (n - 1) on.
fn part_by_visit(sets: &[u16], x: usize, visits: usize, parity: usize) -> u64
    requires x_bound { x < 65536 }
    requires visits_value { visits ≡ visiting.visits sets.now x }
    requires visits_bound { visits ≤ 5 }
    ensures { result ≡ masks.part_by_visit sets.now x parity }
{
    let mut part = 0;
    for a in 0..8usize {
        let k = access::word(sets, 8 * x + a);
        part = bits::put(part, 8 * (visits - (k + 1) / 2) + a, k % 2 == parity);
    }
    part
}

// The visits of symbol x, counted from 0; a terminal has none.
fn symbol_visits(words: &[u16], x: usize, visits: usize) -> u64
    requires x_bound { x < 65536 }
    requires visits_bound { visits ≤ 5 }
    ensures { result ≡ masks.symbol_visits words.now x visits }
{
    if access::nonterminal(words, x) {
        return bits::below(visits);
    }
    0
}

// What is kept of each symbol, found once a grammar, since every visit and leave asks for it.
pub fn by_visit(words: &[u16], sets: &[u16]) -> ByVisit
    requires words_bound { table.symbols words.now ≤ limits.most_symbols }
    requires few_visits { masks.FewVisits sets.now }
    ensures { masks.ByVisit words.now sets.now result }
{
    let mut by = ByVisit {
        inherited: [0; 32],
        synthesized: [0; 32],
        visits: [0; 32],
    };
    for x in 0..access::symbols(words) {
        let visits = visits_of(sets, x);
        by.inherited[x] = part_by_visit(sets, x, visits, 0);
        by.synthesized[x] = part_by_visit(sets, x, visits, 1);
        by.visits[x] = symbol_visits(words, x, visits);
    }
    by
}

// What is kept of symbol x for a visit, counted from 0: the inherited attributes that it takes along, or the synthesized ones that it makes available.
fn of_visit(kept: &[u64; 32], x: usize, n: usize) -> u64
    requires { (x < limits.most_symbols) × (n < 8) }
    ensures { result ≡ masks.of_visit kept.now x n }
{
    bits::field(kept[x], 8 * n)
}

// Its visits, counted from 0; a terminal has none.
fn visits_in(by: &ByVisit, x: usize) -> u64
    requires { x < limits.most_symbols }
    ensures { result ≡ masks.visits_in by.now x }
{
    by.visits[x]
}

// The lowest eight bits of the words that are kept of the children of a rule: of their visits all, of their inherited attributes what
// their first visits take along.
fn of_children(rule: &Rule<'_>, kept: &[u64; 32]) -> u64
    requires shaped { places.Shaped rule.now.words.now rule.now.at }
    requires tabled { masks.Tabled rule.now.words.now rule.now.at }
    ensures { result ≡ masks.children_in rule.now.words.now kept.now rule.now.at }
{
    let n = rule.right_length();
    let mut found = 0;
    for i in 0..n {
        let child = bits::field(kept[rule.symbol(i + 1)], 0);
        found = bits::union(bits::raised(child, 8 * (i + 1)), found);
    }
    found
}

// The attributes of a nonterminal; those of a terminal are always available.
fn made_attributes(words: &[u16], x: usize) -> u64
    requires x_bound { x < 65536 }
    requires few_attributes { table.attributes words.now x ≤ 8 }
    ensures { result ≡ masks.made_attributes words.now x }
{
    if access::nonterminal(words, x) {
        return bits::below(access::attributes(words, x));
    }
    0
}

// The occurrences of nonterminals in a rule.
fn made_occurrences(rule: &Rule<'_>) -> u64
    requires shaped { places.Shaped rule.now.words.now rule.now.at }
    ensures { result ≡ masks.occurrences_from rule.now.words.now rule.now.at }
{
    let n = rule.right_length();
    let mut made = 0;
    for i in 0..n + 1 {
        let there = made_attributes(rule.words, rule.symbol(i));
        made = bits::union(bits::raised(there, 8 * i), made);
    }
    made
}

// The members of a set, each one up.
fn one_up(set: u64) -> u64
    ensures { result ≡ masks.one_up set }
{
    set << 1
}

impl State {
    // Before the first action. The left side's inherited attributes of visit 1 are available from the start.
    pub fn start(rule: &Rule<'_>, by: &ByVisit) -> State
        requires shaped { places.Shaped rule.now.words.now rule.now.at }
        requires tabled { masks.Tabled rule.now.words.now rule.now.at }
        ensures { masks.Started rule.now.words.now by.now rule.now.at result.computes result.visits result.leaves result.waiting result.wanted }
    {
        let left = rule.symbol(0);
        State {
            computes: rule.definings(),
            visits: of_children(rule, &by.visits),
            leaves: visits_in(by, left),
            waiting: bits::minus(made_occurrences(rule), of_visit(&by.inherited, left, 0)),
            wanted: of_children(rule, &by.inherited),
        }
    }

    // The visits that are ready: the next one of each child, the visit before which is not left, but for the children at which something waits
    // that it takes along.
    pub fn ready_visits(self) -> u64
        ensures { result ≡ masks.ready_visits self.visits (bit.common self.wanted self.waiting) }
    {
        let mut ready = bits::minus(self.visits, one_up(self.visits));
        let mut left = bits::common(self.wanted, self.waiting);
        // One that waits stands for all that wait at its child, which are taken out with it.
        while left != 0 {
            let child = bits::raised(255, 8 * (bits::first(left) / 8));
            ready = bits::minus(ready, child);
            left = bits::minus(left, child);
        }
        ready
    }

    // The leaves that are ready. Only the next one can be: the last one where nothing else is left, another where nothing that it hands up waits.
    pub fn ready_leaves(self, rule: &Rule<'_>, by: &ByVisit) -> u64
        requires left_small { places.symbol_from rule.now.words.now rule.now.at 0 < limits.most_symbols }
        requires few_leaves { masks.FewLeaves self.leaves }
        ensures { result ≡ masks.ready_leaves rule.now.words.now by.now rule.now.at self.computes self.visits self.leaves self.waiting }
    {
        if self.leaves == 0 {
            return 0;
        }
        let b = bits::first(self.leaves);
        if bits::rest(self.leaves) == 0 {
            return bits::put(0, b, bits::union(self.computes, self.visits) == 0);
        }
        let up = of_visit(&by.synthesized, rule.symbol(0), b);
        bits::put(0, b, bits::common(up, self.waiting) == 0)
    }

    // Compute occurrence o.
    pub fn compute(self, o: usize) -> Step
        requires { o < 64 }
        ensures { spec.Done (spec.number result.action) result.state.computes result.state.visits result.state.leaves result.state.waiting result.state.wanted o (bit.remove o self.computes) self.visits self.leaves (bit.remove o self.waiting) self.wanted }
    {
        Step {
            action: Action::Compute(o),
            state: State {
                computes: bits::without(self.computes, o),
                visits: self.visits,
                leaves: self.leaves,
                waiting: bits::without(self.waiting, o),
                wanted: self.wanted,
            },
        }
    }

    // Visit b of a child: its synthesized attributes of that visit are available then, and its next visit takes along those inherited ones that
    // belong to it.
    pub fn visit(self, rule: &Rule<'_>, by: &ByVisit, b: usize) -> Step
        requires b_bound { (b < 64) × (b % 8 < 7) }
        requires symbol_small { places.symbol_from rule.now.words.now rule.now.at (b / 8) < limits.most_symbols }
        ensures { spec.Done (spec.number result.action) result.state.computes result.state.visits result.state.leaves result.state.waiting result.state.wanted (64 + b) self.computes (bit.remove b self.visits) self.leaves (bit.minus self.waiting (masks.handed_up rule.now.words.now by.now rule.now.at b)) (masks.wanted_next rule.now.words.now by.now rule.now.at b self.wanted) }
    {
        let i = b / 8;
        let x = rule.symbol(i);
        let up = of_visit(&by.synthesized, x, b % 8);
        let down = of_visit(&by.inherited, x, b % 8 + 1);
        let others = bits::minus(self.wanted, bits::raised(255, 8 * i));
        Step {
            action: Action::Visit(b),
            state: State {
                computes: self.computes,
                visits: bits::without(self.visits, b),
                leaves: self.leaves,
                waiting: bits::minus(self.waiting, bits::raised(up, 8 * i)),
                wanted: bits::union(others, bits::raised(down, 8 * i)),
            },
        }
    }

    // Leave b to the parent: the left side's inherited attributes of the next visit are available then.
    pub fn leave(self, rule: &Rule<'_>, by: &ByVisit, b: usize) -> Step
        requires b_bound { b < 7 }
        requires left_small { places.symbol_from rule.now.words.now rule.now.at 0 < limits.most_symbols }
        ensures { spec.Done (spec.number result.action) result.state.computes result.state.visits result.state.leaves result.state.waiting result.state.wanted (128 + b) self.computes self.visits (bit.remove b self.leaves) (bit.minus self.waiting (masks.handed_down rule.now.words.now by.now rule.now.at b)) self.wanted }
    {
        let down = of_visit(&by.inherited, rule.symbol(0), b + 1);
        Step {
            action: Action::Leave(b),
            state: State {
                computes: self.computes,
                visits: self.visits,
                leaves: bits::without(self.leaves, b),
                waiting: bits::minus(self.waiting, down),
                wanted: self.wanted,
            },
        }
    }

    // How many actions are left.
    pub fn actions_left(self) -> usize
        ensures value { result ≡ bit.count 64 self.computes + bit.count 64 self.visits + bit.count 64 self.leaves }
        ensures upper_bound { result ≤ 192 }
    {
        bits::count(self.computes) + bits::count(self.visits) + bits::count(self.leaves)
    }
}
