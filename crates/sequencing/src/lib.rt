// The visit-sequence of one rule (000, section 6.3), written into the lent plan.
// Of the actions that are left the lowest ready one is always next.
#![tactic(auto)]

ghost use Rattle.std.specs.Prelude.{◌≡◌, ◌+◌, ◌*◌, ◌≤◌, ◌<◌, length};
ghost use Rattle.bits.specs.Bit as bit;
ghost use Rattle.grammar.specs.Limits as limits;
ghost use Rattle.grammar.specs.Table as table;
ghost use Rattle.relations.specs.Computed.{ids_of};
ghost use Rattle.sequences.specs.Order.{sequence_of};
ghost use Rattle.plans.specs.Buffers.{sequence_words};
ghost use Rattle.remaining.specs.RuleSets as masks;
ghost use Rattle.remaining.specs.Remaining as spec;
ghost use Rattle.sequencing.specs.Given as given;
ghost use Rattle.sequencing.specs.Blocked as blocking;
ghost use Rattle.sequencing.specs.Going as going;

use access::Rule;
use grammar::{ROWS, RULE_WORDS, SET_WORDS};
use remaining::{ByVisit, State, Step};

// The computes to which no path leads from what waits. Where one that waits leads to another, the other blocks nothing more, and once all
// computes are blocked the rest of what waits blocks no more of them.
fn unblocked(rows: &[u64], base: usize, waiting: u64, computes: u64) -> u64
    requires most_occurrences_in_bounds { base + limits.most_occurrences ≤ length rows.now }
    requires rows_closed { blocking.RowsClosed rows.now base }
    ensures { blocking.Unblocked rows.now base waiting computes result }
{
    let mut left = waiting;
    let mut ready = computes;
    while left != 0 {
        let row = rows[base + bits::first(left)];
        ready = bits::minus(ready, row);
        if ready == 0 {
            return 0;
        }
        left = bits::minus(bits::rest(left), row);
    }
    ready
}

// An action with what is left after it, and the computes that are ready then.
#[derive(Clone, Copy)]
struct Turn {
    step: Step,
    ready: u64,
}

// The lowest ready compute. Of the others only those to which it leads can become ready by it.
fn compute_first(rows: &[u64], base: usize, ready: u64, state: State) -> Turn
    requires most_occurrences_in_bounds { base + limits.most_occurrences ≤ length rows.now }
    requires rows_closed { blocking.RowsClosed rows.now base }
    requires unblocked { blocking.Unblocked rows.now base state.waiting state.computes ready }
    requires ready_nonzero { 0 < ready }
    ensures first { bit.First ready (spec.number result.step.action) }
    ensures done { spec.Done (spec.number result.step.action) result.step.state.computes result.step.state.visits result.step.state.leaves result.step.state.waiting result.step.state.wanted (spec.number result.step.action) (bit.remove (spec.number result.step.action) state.computes) state.visits state.leaves (bit.remove (spec.number result.step.action) state.waiting) state.wanted }
    ensures unblocked_2 { blocking.Unblocked rows.now base result.step.state.waiting result.step.state.computes result.ready }
{
    let o = bits::first(ready);
    let step = state.compute(o);
    let leads = bits::common(rows[base + o], step.state.computes);
    let woken = unblocked(rows, base, step.state.waiting, bits::minus(leads, ready));
    Turn {
        step,
        ready: bits::union(bits::rest(ready), woken),
    }
}

// The lowest action that is ready. Computes come before visits, visits before leaves; an ordered rule always has one that is ready.
fn next(rule: &Rule<'_>, r: usize, by: &ByVisit, rows: &[u64], ready: u64, state: State) -> Turn
    requires rule_given { given.RuleGiven rule.now.words.now (given.set_words rule.now.words.now) by.now rows.now rule.now.at r }
    requires going { going.Going rule.now.words.now (ids_of rule.now.words.now) (given.set_words rule.now.words.now) r (spec.remains state.computes state.visits state.leaves) state.waiting }
    requires some_left { 1 ≤ length (spec.remaining (spec.remains state.computes state.visits state.leaves)) }
    requires along { masks.Along rule.now.words.now by.now rule.now.at state.visits state.wanted }
    requires unblocked { blocking.Unblocked rows.now (limits.row_words r) state.waiting state.computes ready }
    ensures taken { going.Taken rule.now.words.now (ids_of rule.now.words.now) (given.set_words rule.now.words.now) r (spec.remains state.computes state.visits state.leaves) (spec.number result.step.action) (spec.remains result.step.state.computes result.step.state.visits result.step.state.leaves) result.step.state.waiting }
    ensures along_2 { masks.Along rule.now.words.now by.now rule.now.at result.step.state.visits result.step.state.wanted }
    ensures unblocked_2 { blocking.Unblocked rows.now (limits.row_words r) result.step.state.waiting result.step.state.computes result.ready }
{
    if ready != 0 {
        return compute_first(rows, ROWS * r, ready, state);
    }
    let visits = state.ready_visits();
    if visits != 0 {
        let visited = state.visit(rule, by, bits::first(visits));
        return Turn {
            step: visited,
            ready: unblocked(
                rows,
                ROWS * r,
                visited.state.waiting,
                visited.state.computes,
            ),
        };
    }
    let leaves = state.ready_leaves(rule, by);
    let left = state.leave(rule, by, bits::first(leaves));
    Turn {
        step: left,
        ready: unblocked(rows, ROWS * r, left.state.waiting, left.state.computes),
    }
}

// The words of the sequence: length, actions, zeros.
fn words_of(rule: &Rule<'_>, r: usize, by: &ByVisit, rows: &[u64]) -> [u16; RULE_WORDS]
    requires { given.RuleGiven rule.now.words.now (given.set_words rule.now.words.now) by.now rows.now rule.now.at r }
    ensures { result ≡ sequence_words (sequence_of rule.now.words.now (ids_of rule.now.words.now) (given.set_words rule.now.words.now) r) }
{
    let mut state = State::start(rule, by);
    let n = state.actions_left();
    let mut ready = unblocked(rows, ROWS * r, state.waiting, state.computes);
    let mut block = [0u16; RULE_WORDS];
    block[0] = n as u16;
    for j in 0..n {
        let turn = next(rule, r, by, rows, ready, state);
        let step = turn.step;
        block[j + 1] = step.action.word();
        state = step.state;
        ready = turn.ready;
    }
    block
}

// Writes a block of words into the plan.
pub fn write(plan: &mut [u16], at: usize, block: &[u16])
    requires { at + length block.now ≤ length plan.old }
    ensures { plan.new ≡ given.with_block plan.old at block.now }
{
    plan[at..at + block.len()].copy_from_slice(block);
}

// The visit-sequence of rule r.
pub fn sequence(rule: &Rule<'_>, r: usize, by: &ByVisit, rows: &[u64], plan: &mut [u16])
    requires rule_given { given.RuleGiven rule.now.words.now (given.set_words rule.now.words.now) by.now rows.now rule.now.at r }
    requires plan_room { limits.plan_words (table.rules rule.now.words.now) ≤ length plan.old }
    ensures { plan.new ≡ given.with_block plan.old (limits.plan_words r) (sequence_words (sequence_of rule.now.words.now (ids_of rule.now.words.now) (given.set_words rule.now.words.now) r)) }
{
    let block = words_of(rule, r, by, rows);
    write(plan, SET_WORDS + RULE_WORDS * r, &block);
}
