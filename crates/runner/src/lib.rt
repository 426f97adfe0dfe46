// The whole job: plan a grammar, check a tree against it and run the visit-sequences over the tree (document 01, refusals 1 to 18).
#![tactic(auto)]

ghost use Rattle.runner.specs.Answered as answered;
ghost use Rattle.runner.specs.Whole as whole;

use access::Table;
use refusals::Refusal;
use runs::Report;

// Checks the tree and runs a sound plan, whoever drew it up: what every run comes down to.
pub fn run_sound(
    table: &Table<'_>,
    plan: &[u16],
    tree: &[u16],
    values: &mut [i32],
    budget: u32,
) -> Result<Report, Refusal>
    requires { whole.Runnable table.now.words.now plan.now }
    ensures { whole.Checked table.now.words.now plan.now tree.now values.old budget result values.new }
{
    checking::check(table, tree, values.len())?;
    let ran = executing::execute(table, plan, tree, values, budget);
    Ok(Report { ran })
}

// Plans, checks and runs; the table is read once. Whatever is refused leaves rows, plan and values as the definitions say of how far it came.
pub fn run(
    words: &[u16],
    rows: &mut [u64],
    plan: &mut [u16],
    tree: &[u16],
    values: &mut [i32],
    budget: u32,
) -> Result<Report, Refusal>
    ensures { answered.Answered words.now rows.old plan.old tree.now values.old budget result values.new rows.new plan.new }
{
    let table = reading::read(words)?;
    planner::plan_table(&table, rows, plan)?;
    run_sound(&table, plan, tree, values, budget)
}
