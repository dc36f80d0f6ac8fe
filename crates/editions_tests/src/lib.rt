// Tests of editions and entries: an odd edition that keeps the laws in its own way, what generic code
// reads of an edition, and tables of entries.
#![tactic(auto)]

#[cfg(test)]
mod answers;
#[cfg(test)]
mod forms;
pub mod generic;
pub mod odd;
#[cfg(test)]
mod sessions;
