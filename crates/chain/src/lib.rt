// The chain: a shelf that links its slots by number and uses freed slots again.
#![tactic(auto)]

use linked::Linked;
use shelves::ranked::Ranked;

pub mod link;
pub mod linked;
mod links;
mod trail;

pub type Chain<'a, R> = Ranked<Linked<'a>, R>;
