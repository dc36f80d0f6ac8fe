// How far the orders that answers show come in rank order.
ghost use Rattle.std.specs.Prelude.{◌≡◌, None};
ghost use Rattle.script.specs.Ranked.{follows, order_of, ranked_pairs};

use crate::step::Answer;
use orders::order::Order;
use shelves::rank::Rank;

// How many answers show an order right behind one that comes before it.
pub fn ranked_pairs<R: Rank>(answers: &[Answer]) -> usize
    ensures { result ≡ ranked_pairs R.Rank.before None answers.now }
{
    answers
        .iter()
        .zip(answers.iter().skip(1))
        .filter(|pair| follows::<R>(order_of(*pair.0), order_of(*pair.1)))
        .count()
}

// The order that an answer shows.
fn order_of(answer: Answer) -> Option<Order>
    ensures { result ≡ order_of answer }
{
    match answer {
        Answer::Taken(order) | Answer::Shown(order) => order,
        _ => None,
    }
}

// Whether both are there, and the first comes before the second.
fn follows<R: Rank>(first: Option<Order>, second: Option<Order>) -> bool
    ensures { result ≡ follows R.Rank.before first second }
{
    match (first, second) {
        (Some(a), Some(b)) => R::precedes(&a, &b),
        _ => false,
    }
}
