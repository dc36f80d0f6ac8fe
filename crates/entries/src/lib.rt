// An entry: the checks of its form, and the sessions that it has.
#![tactic(auto)]

pub mod checked;
pub mod form;
pub mod laws;
pub mod sessions;
