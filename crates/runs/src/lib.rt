// The run of a plan over a tree. `Report` is what a run answers that is not refused, and `Ran` how it came out; the definitions of `specs/` say which.
#![tactic(auto)]

#[derive(Clone, Copy)]
pub enum Ran {
    // The actions that the whole run took.
    Done(u32),
    // The budget, after which the run stopped.
    Stopped(u32),
}

#[derive(Clone, Copy)]
pub struct Report {
    pub ran: Ran,
}
