// What puts, takes and writes keep of a shelf's list, for every rank.
ghost use Rattle.shelves.specs.Laws.{Finds, KeepsDistinct, KeepsRank, Members, Totals};

use crate::rank::Rank;

// Every put, take and write keeps a list in rank order and its serials distinct, and changes no
// member but the one that it is about.
pub fn hold<R: Rank>()
    ensures rank { KeepsRank R.Rank.before }
    ensures distinct { KeepsDistinct R.Rank.before }
    ensures found { Finds }
    ensures members { Members R.Rank.before }
    ensures totals { Totals R.Rank.before }
{}
