// Scripts of calls, carried out on any shelf.
#![tactic(auto)]

pub mod ranked;
pub mod run;
pub mod step;
