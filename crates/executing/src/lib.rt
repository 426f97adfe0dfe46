// The run of a plan over a checked tree: the stack automaton of 000, section 6.3, with its stack and places in arrays and the node on top in a local.
#![tactic(auto)]

ghost use Rattle.std.specs.Prelude.{◌≡◌, ◌+◌, ◌*◌, ◌≤◌, ◌<◌, MatchOption, length, set};
ghost use Rattle.basics.specs.Lists.{word};
ghost use Rattle.grammar.specs.Limits.{most_rules, most_occurrences, plan_words};
ghost use Rattle.grammar.specs.Table as tables;
ghost use Rattle.grammar.specs.Verdicts.{Good};
ghost use Rattle.plans.specs.Sequences.{sequence_at};
ghost use Rattle.trees.specs.Tree as trees;
ghost use Rattle.trees.specs.Checking.{check_tree};
ghost use Rattle.evaluating.specs.FunctionPlaces.{Valued};
ghost use Rattle.runs.specs.Sound.{Sound};
ghost use Rattle.runs.specs.Run as runs;
ghost use Rattle.executing.specs.Located as located;
ghost use Rattle.executing.specs.State as state;

use access::{Rule, Table, known};
use grammar::{MOST_RULES, ROWS, RULE_WORDS, SET_WORDS};
use runs::Ran;
use trees::MOST_NODES;

// For each occurrence of each rule a word.
const STARTS: usize = ROWS * MOST_RULES;

type Starts = [u16; STARTS];

// For each node a word.
type Nodes = [u16; MOST_NODES];

// Notes that the function of occurrence o of rule r starts at word f.
fn note(starts: &mut Starts, r: usize, o: usize, f: usize)
    requires { (r < most_rules) × ((o < most_occurrences) × (f < 65536)) }
    ensures { starts.new ≡ set starts.old (most_occurrences * r + o) f }
{
    starts[ROWS * r + o] = f as u16;
}

// Notes where each function of rule r starts: at its target.
fn locate_rule(table: &Table<'_>, r: usize, starts: &mut Starts)
    requires { r < tables.rules table.now.words.now }
    ensures { located.RuleLocated table.now.words.now r starts.old starts.new }
{
    let words = table.words;
    let rule = Rule {
        words,
        at: table.rule_at(r),
    };
    let mut f = rule.first_function();
    for k in 0..rule.function_count() {
        note(starts, r, access::word(words, f), f);
        f = access::next_function(words, f);
    }
}

// Where the function of each occurrence starts: word 64 r + o for occurrence o of rule r, so that a run need not look for it. The words are lent, since
// handing them out would copy them.
fn function_starts(table: &Table<'_>, starts: &mut Starts)
    ensures { located.Located table.now.words.now starts.new }
{
    for r in 0..access::rules(table.words) {
        locate_rule(table, r, starts);
    }
}

// Where the function of occurrence o of rule r starts.
fn start_of(starts: &Starts, r: usize, o: usize) -> usize
    requires { (r < most_rules) × (o < most_occurrences) }
    ensures { (result ≡ word starts.now (most_occurrences * r + o)) × (result < 65536) }
{
    known(starts, ROWS * r + o)
}

// The plan's word of the first action of rule r: its length stands before it.
fn first_action(r: usize) -> usize
    requires { r < most_rules }
    ensures { result ≡ sequence_at r + 1 }
{
    SET_WORDS + RULE_WORDS * r + 1
}

// An action of a plan: to compute an occurrence, to visit the child at a position, or to leave.
enum Action {
    Compute(usize),
    Visit(usize),
    Leave,
}

// The action that a plan's word stands for.
impl From<usize> for Action {
    ghost from_gives = { λ number action. state.StandsFor number action };

    fn from(number: usize) -> Action {
        if number < 64 {
            return Action::Compute(number);
        }
        if number < 128 {
            return Action::Visit((number - 64) / 8);
        }
        Action::Leave
    }
}

// The rule of node n, and its child at position i.
fn rule_of(tree: &[u16], n: usize) -> usize
    requires { n < trees.nodes tree.now }
    ensures { (result ≡ trees.rule_of tree.now n) × (result < 65536) }
{
    known(tree, 8 * n)
}

fn child(tree: &[u16], n: usize, i: usize) -> usize
    requires { (n < trees.nodes tree.now) × (i < 8) }
    ensures { (result ≡ trees.child tree.now n i) × (result < 65536) }
{
    known(tree, 8 * n + i)
}

// Computes occurrence o of the rule at node n, whose function starts at word f.
fn compute(words: &[u16], f: usize, tree: &[u16], values: &mut [i32], n: usize, o: usize)
    requires valued { Valued words.now f tree.now n (length values.old) }
    requires n_bound { (n < trees.nodes tree.now) × ((n < 65536) × (o < 64)) }
    requires o_in_bounds { trees.cell tree.now n o < length values.old }
    ensures { values.new ≡ state.written words.now tree.now values.old n o f }
{
    let value = evaluating::function_value(words, f, tree, values, n);
    let c = evaluating::cell(tree, n, o);
    values[c] = value;
}

// The node on top of the stack, its rule, and the plan's word at which it is.
#[derive(Clone, Copy)]
struct Top {
    n: usize,
    r: usize,
    at: usize,
}

// Node n at a place of its sequence, counted from 0.
fn top_at(tree: &[u16], n: usize, place: usize) -> Top
    requires { state.Placed tree.now n × (place < 65536) }
    ensures { state.Standing tree.now n place result.n result.r result.at }
{
    let r = rule_of(tree, n);
    Top {
        n,
        r,
        at: first_action(r) + place,
    }
}

// The child at position i of node n: it resumes after its last leave.
fn child_top(tree: &[u16], places: &Nodes, n: usize, i: usize) -> Top
    requires n_bound { (n < trees.nodes tree.now) × (i < 8) }
    requires placed { state.Placed tree.now (trees.child tree.now n i) }
    ensures { state.Visited tree.now places.now n i result.n result.r result.at }
{
    let c = child(tree, n, i);
    top_at(tree, c, known(places, c))
}

// A node that has another above it, and the plan's word at which it goes on.
#[derive(Clone, Copy)]
struct Frame {
    node: u16,
    at: u16,
}

impl Frame {
    // The node on top again.
    fn resumed(self, tree: &[u16]) -> Top
        requires { self.node < trees.nodes tree.now }
        ensures { state.Resumed tree.now self result.n result.r result.at }
    {
        let n = self.node as usize;
        Top {
            n,
            r: rule_of(tree, n),
            at: self.at as usize,
        }
    }
}

// The nodes below the one on top, from the bottom up.
#[derive(Drop)]
struct Stack {
    frames: [Frame; MOST_NODES],
    depth: usize,
}

impl Stack {
    // Notes node n, to come back to it at word `at`.
    fn push(&mut self, n: usize, at: usize)
        requires { (self.old.depth < trees.most_nodes) × ((n < 65536) × (at < 65536)) }
        ensures { state.Pushed self.old self.new n at }
    {
        self.frames[self.depth] = Frame {
            node: n as u16,
            at: at as u16,
        };
        self.depth += 1;
    }

    // The node that was pushed last, if there is one.
    fn pop(&mut self) -> Option<Frame>
        requires { self.old.depth ≤ trees.most_nodes }
        ensures { MatchOption result (self.old.depth ≡ 0) (λ f. state.Popped self.old self.new f) }
    {
        if self.depth == 0 {
            return None;
        }
        self.depth -= 1;
        Some(self.frames[self.depth])
    }
}

// Runs the plan over the tree until the stack is empty or the budget is used up: a compute writes one value, a visit pushes the child, a leave pops.
// The node on top goes on word by word of the plan; its place is written when it is left, and read when it is visited again.
pub fn execute(
    table: &Table<'_>,
    plan: &[u16],
    tree: &[u16],
    values: &mut [i32],
    budget: u32,
) -> Ran
    requires sound { Sound table.now.words.now plan.now }
    requires words_in_bounds { plan_words (tables.rules table.now.words.now) ≤ length plan.now }
    requires values_value { check_tree table.now.words.now tree.now (length values.old) ≡ Good }
    ensures value { result ≡ (runs.ran table.now.words.now plan.now tree.now values.old budget).answer }
    ensures values_after { values.new ≡ (runs.ran table.now.words.now plan.now tree.now values.old budget).machine.values }
{
    let mut starts = [0u16; STARTS];
    function_starts(table, &mut starts);
    let mut stack = Stack {
        frames: [Frame { node: 0, at: 0 }; MOST_NODES],
        depth: 0,
    };
    // For each node that is not on the stack the place of its sequence at which it goes on: a child resumes after its last leave.
    let mut places = [0u16; MOST_NODES];
    let mut top = top_at(tree, 0, 0);
    for spent in 0..budget {
        let action = known(plan, top.at);
        match Action::from(action) {
            Action::Compute(o) => {
                compute(
                    table.words,
                    start_of(&starts, top.r, o),
                    tree,
                    values,
                    top.n,
                    o,
                );
                top.at += 1;
            }
            Action::Visit(i) => {
                stack.push(top.n, top.at + 1);
                top = child_top(tree, &places, top.n, i);
            }
            Action::Leave => {
                places[top.n] = (top.at + 1 - first_action(top.r)) as u16;
                let Some(below) = stack.pop() else {
                    return Ran::Done(spent + 1);
                };
                top = below.resumed(tree);
            }
        }
    }
    Ran::Stopped(budget)
}
