// Ranks, what a shelf is, and the shelf over any arrangement of slots.
#![tactic(auto)]

pub mod laws;
pub mod rank;
pub mod ranked;
pub mod shelf;
pub mod slots;
pub mod walk;
