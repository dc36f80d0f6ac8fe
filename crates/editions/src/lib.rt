// Editions: the rule as a text prints it. What an edition names and answers, the laws that it keeps,
// and the two texts.
#![tactic(auto)]

pub mod common;
pub mod cut;
pub mod edition;
pub mod sets;
pub mod text2006;
pub mod text2016;
