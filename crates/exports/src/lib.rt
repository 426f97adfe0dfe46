// Planning and running for C callers: a slice is a pointer and its count of elements, an answer is a status and four numbers (specs/Told, specs/Answered).
#![tactic(auto)]

ghost use Rattle.std.specs.Prelude.{◌≡◌};
ghost use Rattle.refusals.specs.Numbers.{number_of, place_of, second_of};
ghost use Rattle.exports.specs.Answered as answered;

use refusals::Refusal;
use runs::{Ran, Report};

// Accepted or done; stopped by the budget; refused.
const DONE: u32 = 0;

const STOPPED: u32 = 1;

const REFUSED: u32 = 2;

// Tells a refusal's number and places.
fn refuse(refusal: Refusal, number: &mut u64, place: &mut u64, second: &mut u64) -> u32
    ensures value { result ≡ 2 }
    ensures number_after { number.new ≡ number_of refusal }
    ensures place_after { place.new ≡ place_of refusal }
    ensures second_after { second.new ≡ second_of refusal }
{
    *number = refusal.number() as u64;
    *place = refusal.place() as u64;
    *second = refusal.second_place() as u64;
    REFUSED
}

// Plans a grammar, as `planner::plan`.
#[unsafe(no_mangle)]
pub extern "C" fn skarnuth_plan(
    words: &[u16],
    rows: &mut [u64],
    plan: &mut [u16],
    count: &mut u64,
    number: &mut u64,
    place: &mut u64,
    second: &mut u64,
) -> u32
    ensures { answered.PlanAnswered words.now rows.old plan.old result count.new number.new place.new second.new rows.new plan.new }
{
    let planned = planner::plan(words, rows, plan);
    *count = 0;
    *number = 0;
    *place = 0;
    *second = 0;
    match planned {
        Ok(n) => {
            *count = n as u64;
            DONE
        }
        Err(refusal) => refuse(refusal, number, place, second),
    }
}

// Plans, checks and runs, as `runner::run`.
#[unsafe(no_mangle)]
pub extern "C" fn skarnuth_run(
    words: &[u16],
    rows: &mut [u64],
    plan: &mut [u16],
    tree: &[u16],
    values: &mut [i32],
    budget: u32,
    count: &mut u64,
    number: &mut u64,
    place: &mut u64,
    second: &mut u64,
) -> u32
    ensures { answered.RunAnswered words.now rows.old plan.old tree.now values.old budget result count.new number.new place.new second.new values.new rows.new plan.new }
{
    let answered = runner::run(words, rows, plan, tree, values, budget);
    *count = 0;
    *number = 0;
    *place = 0;
    *second = 0;
    match answered {
        Ok(Report { ran: Ran::Done(n) }) => {
            *count = n as u64;
            DONE
        }
        Ok(
            Report {
                ran: Ran::Stopped(n),
            },
        ) => {
            *count = n as u64;
            STOPPED
        }
        Err(refused) => refuse(refused, number, place, second),
    }
}
