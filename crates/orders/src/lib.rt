// The words of the market: orders, what members send, what the board reports and why it refuses.
#![tactic(auto)]

pub mod cause;
pub mod code;
pub mod entry;
pub mod kind;
pub mod order;
pub mod phase;
pub mod refusal;
pub mod report;
pub mod sessions;
pub mod side;
pub mod terms;
pub mod time;
