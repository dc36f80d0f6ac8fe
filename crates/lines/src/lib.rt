// What the desk prints of records and their parts, as text.
#![tactic(auto)]

pub mod letter;
pub mod price;
pub mod record;
#[cfg(test)]
mod tests;
