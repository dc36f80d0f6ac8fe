// What generic code reads of an edition's constants, and what it knows of its answers.
ghost use Rattle.std.specs.Prelude.{◌≡◌};
ghost use Rattle.editions.specs.Laws.{Lawful};

use editions::edition::Edition;
use orders::kind::Kind;
use orders::time::TimeInForce;

pub fn width<E: Edition>() -> u32
    ensures { result ≡ E.Edition.text.width }
{
    E::WIDTH
}

pub fn has_kind<E: Edition>(kind: Kind) -> bool
    ensures { result ≡ E.Edition.text.kinds kind }
{
    E::KINDS.contains(kind)
}

pub fn has_time<E: Edition>(time: TimeInForce) -> bool
    ensures { result ≡ E.Edition.text.times time }
{
    E::TIMES.contains(time)
}

// Every edition is lawful.
pub fn laws_hold<E: Edition>()
    ensures { Lawful E.Edition.text }
{}
