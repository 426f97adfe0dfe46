// Planning: a grammar's table in, its sets and visit-sequences out, or the first refusal of 1 to 10 that applies (000, section 7).
#![tactic(auto)]

ghost use Rattle.std.specs.Prelude.{◌≡◌, length};
ghost use Rattle.grammar.specs.Verdicts.{Good};
ghost use Rattle.plans.specs.Buffers.{over};
ghost use Rattle.plans.specs.Answer as answer;
ghost use Rattle.planner.specs.Answered as answered;
ghost use Rattle.planner.specs.Stages as ready;

use access::{Rule, Table};
use grammar::{ROWS, RULE_WORDS, SET_WORDS};
use refusals::Refusal;

// 8: room in the rows, then in the plan.
fn room(words: &[u16], rows: usize, plan: usize) -> Result<(), Refusal>
    ensures { result ≡ answer.room words.now rows plan }
{
    let rules = access::rules(words);
    if rows < ROWS * rules {
        return Err(Refusal::TooShort(0));
    }
    if plan < SET_WORDS + RULE_WORDS * rules {
        return Err(Refusal::TooShort(1));
    }
    Ok(())
}

// The plan of an ordered grammar: its set words, then the visit-sequence of each rule.
fn write_plan(table: &Table<'_>, sets: &[u16; SET_WORDS], rows: &[u64], plan: &mut [u16])
    requires { ready.OrderedStage table.now.words.now sets.now rows.now (length plan.old) }
    ensures { plan.new ≡ over (answer.accepted_plan table.now.words.now) plan.old }
{
    let words = table.words;
    sequencing::write(plan, 0, sets);
    let by = remaining::by_visit(words, sets);
    let count = access::rules(words);
    for r in 0..count {
        let rule = Rule {
            words,
            at: table.rule_at(r),
        };
        sequencing::sequence(&rule, r, &by, rows, plan);
    }
}

// What comes after 9: the sets, EDP and the plan.
fn plan_noncircular(
    table: &Table<'_>,
    ids: &[u64; 32],
    rows: &mut [u64],
    plan: &mut [u16],
) -> Result<usize, Refusal>
    requires { ready.Noncircular table.now.words.now ids.now rows.old (length plan.old) }
    ensures { ready.Came table.now.words.now (ready.after_nine table.now.words.now) rows.old plan.old result rows.new plan.new }
{
    let rules = access::rules(table.words);
    let sets = placing::sets_of(table.words, ids);
    extending::extend(table, &sets, rows);
    let edp_cycle = inducing::find_cycle(rows, rules);
    if let Some((r, o)) = edp_cycle {
        return Err(Refusal::CircularEdp(r, o));
    }
    write_plan(table, &sets, rows, plan);
    Ok(SET_WORDS + RULE_WORDS * rules)
}

// What comes after the room: IDP, and the rest where it has no cycle.
fn plan_relations(table: &Table<'_>, rows: &mut [u64], plan: &mut [u16]) -> Result<usize, Refusal>
    requires { answer.room table.now.words.now (length rows.old) (length plan.old) ≡ Good }
    ensures { ready.Came table.now.words.now (ready.after_eight table.now.words.now) rows.old plan.old result rows.new plan.new }
{
    let ids = inducing::induce(table, rows);
    let idp_cycle = inducing::find_cycle(rows, access::rules(table.words));
    if let Some((r, o)) = idp_cycle {
        return Err(Refusal::CircularIdp(r, o));
    }
    plan_noncircular(table, &ids, rows, plan)
}

// Plans a grammar that was read, so that a caller who needs its table again reads it once.
pub fn plan_table(table: &Table<'_>, rows: &mut [u64], plan: &mut [u16]) -> Result<usize, Refusal>
    ensures { answered.Answered table.now.words.now rows.old plan.old result rows.new plan.new }
{
    room(table.words, rows.len(), plan.len())?;
    plan_relations(table, rows, plan)
}

// Plans a grammar. What a refusal leaves in the buffers is what the definitions say of the outcome.
pub fn plan(words: &[u16], rows: &mut [u64], plan: &mut [u16]) -> Result<usize, Refusal>
    ensures { answered.Answered words.now rows.old plan.old result rows.new plan.new }
{
    let table = reading::read(words)?;
    plan_table(&table, rows, plan)
}
