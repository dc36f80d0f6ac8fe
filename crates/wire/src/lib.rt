// A member's stream of bytes: its records, the reader that hands them out, and their fields.
#![tactic(auto)]

pub mod fields;
pub mod reader;
pub mod record;
#[cfg(test)]
mod tests;
