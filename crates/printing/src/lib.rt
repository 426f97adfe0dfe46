// What a run answered, on standard output, for the programs that show what a run does.
#![tactic(auto)]

use refusals::Refusal;
use runs::{Ran, Report};
use std::io;

// A refusal stands by document 01's number, place and second place.
pub fn answer(rt: &impl Print, answer: Result<Report, Refusal>) -> io::Result<()> {
    match answer {
        Ok(
            Report {
                ran: Ran::Done(count),
            },
        ) => print!(rt; "done {count}"),
        Ok(
            Report {
                ran: Ran::Stopped(budget),
            },
        ) => print!(rt; "stopped {budget}"),
        Err(refusal) => print!(rt; "{refusal}"),
    }
}
