// The row: a shelf that keeps its orders one after another in the slots handed to it.
#![tactic(auto)]

use packed::Packed;
use shelves::ranked::Ranked;

mod along;
pub mod packed;

pub type Row<'a, R> = Ranked<Packed<'a>, R>;
