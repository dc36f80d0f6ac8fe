// Steps and answers as text.
use orders::terms::Terms;
use script::step::{Answer, Step};
use std::fmt;

// A type of this crate, as only the drill prints steps.
#[derive(Clone, Copy)]
pub struct StepText(pub Step);

// Likewise for an answer.
#[derive(Clone, Copy)]
pub struct AnswerText(pub Answer);

impl fmt::Display for StepText {
    fn fmt<W: fmt::Write>(&self, f: &mut fmt::Formatter<W>) -> fmt::Result {
        match self.0 {
            Step::Put { serial, price } => write!(f, "put {serial} at {price}"),
            Step::Take(place) => write!(f, "take {place}"),
            Step::Write {
                place,
                balance,
                terms: Terms { kind, minimum },
            } => {
                write!(
                    f,
                    "write {place}, balance {balance}, {kind:?}, minimum {minimum}"
                )
            }
            Step::Find(serial) => write!(f, "find {serial}"),
            Step::Show(place) => write!(f, "show {place}"),
        }
    }
}

impl fmt::Display for AnswerText {
    fn fmt<W: fmt::Write>(&self, f: &mut fmt::Formatter<W>) -> fmt::Result {
        match self.0 {
            Answer::Placed(Ok(())) | Answer::Written(Some(_)) => write!(f, "done"),
            Answer::Placed(Err(refusal)) => write!(f, "refused, {refusal}"),
            Answer::Taken(Some(order)) | Answer::Shown(Some(order)) => write!(
                f,
                "{} at {}, balance {}, {:?}, minimum {}",
                order.serial, order.price, order.balance, order.terms.kind, order.terms.minimum
            ),
            Answer::Found(Some(place)) => write!(f, "place {place}"),
            Answer::Taken(None)
            | Answer::Written(None)
            | Answer::Found(None)
            | Answer::Shown(None) => write!(f, "nothing"),
        }
    }
}
