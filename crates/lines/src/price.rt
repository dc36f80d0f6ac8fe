// A price as members write it.
ghost use Rattle.std.specs.Prelude.{Some};
ghost use Rattle.lines.specs.Text.{price_text};

use std::fmt;

// A price in thousandths of one per cent of par, shown with its three decimals.
#[derive(Clone, Copy)]
pub struct Price(pub u32);

impl fmt::Display for Price {
    ghost output = { λ p. Some (price_text p.0) };

    #[tactic(auto, using(crate::proofs::Decimals::decimals))]
    fn fmt<W: fmt::Write>(&self, f: &mut fmt::Formatter<W>) -> fmt::Result {
        write!(f, "{}.{:03}", self.0 / 1000, self.0 % 1000)
    }
}
