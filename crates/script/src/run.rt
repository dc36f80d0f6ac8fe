// The run of a script on any shelf.
ghost use Rattle.std.specs.Prelude.{◌≡◌, [], ◌∷◌, ◌++◌, IfOk, OnOk};
ghost use Rattle.script.specs.Steps.{after, after_all, answer_of, answers};

use crate::step::{Answer, Step, perform};
use shelves::rank::Rank;
use shelves::shelf::Shelf;
use std::alloc::{AllocError, Global};

// Carries out a script on any shelf. Its answers, and the orders that it leaves, follow from the
// rank, the number of places and the orders before, and from nothing else.
pub fn run<R: Rank, S: Shelf<R>>(
    heap: Global,
    shelf: &mut S,
    script: &[Step],
) -> Result<Vec<Answer>, AllocError>
    ensures answers { IfOk result (λ v. v.items ≡ answers R.Rank.before (S.Shelf.room shelf.old) script.now (S.Shelf.orders shelf.old)) }
    ensures orders { OnOk result (S.Shelf.orders shelf.new ≡ after_all R.Rank.before (S.Shelf.room shelf.old) script.now (S.Shelf.orders shelf.old)) }
{
    let mut answers = Vec::new(heap);
    // No `map` and `collect`: tried, and of a closure that changes the shelf a proof learns no answer.
    for step in script {
        go_on::<R, S>(shelf, *step, &mut answers)?;
    }
    Ok(answers)
}

// Carries out one step more and adds its answer to the others.
fn go_on<R: Rank, S: Shelf<R>>(
    shelf: &mut S,
    step: Step,
    answers: &mut Vec<Answer>,
) -> Result<(), AllocError>
    ensures answers { OnOk result (answers.new.items ≡ answers.old.items ++ answer_of (S.Shelf.room shelf.old) step (S.Shelf.orders shelf.old) ∷ []) }
    ensures orders { S.Shelf.orders shelf.new ≡ after R.Rank.before (S.Shelf.room shelf.old) step (S.Shelf.orders shelf.old) }
    ensures room { S.Shelf.room shelf.new ≡ S.Shelf.room shelf.old }
{
    answers.push(perform::<R, S>(shelf, step))?;
    Ok(())
}
