// The phases of a trading day, in their order; Opening, Core and Late are its sessions.
ghost use Rattle.orders.specs.Codes.{Decodes, Encodes};
ghost use Rattle.orders.specs.Phases.{phase_number, phases};

use crate::code::UnknownCode;

#[derive(Clone, Copy, PartialEq, Eq, Debug)]
pub enum Phase {
    Queue = 0,
    Opening = 1,
    Core = 2,
    Late = 3,
    Closed = 4,
}

// The phase's place in the day, from 0.
impl From<Phase> for u8 {
    ghost from_gives = { Encodes phase_number phases };

    fn from(phase: Phase) -> u8 {
        phase as u8
    }
}

// The phase at a place in the day. A match of its own: see `code`.
impl TryFrom<u8> for Phase {
    type Error = UnknownCode;

    ghost try_from_gives = { Decodes phase_number phases };

    fn try_from(number: u8) -> Result<Phase, UnknownCode> {
        match number {
            0 => Ok(Phase::Queue),
            1 => Ok(Phase::Opening),
            2 => Ok(Phase::Core),
            3 => Ok(Phase::Late),
            4 => Ok(Phase::Closed),
            code => Err(UnknownCode { code }),
        }
    }
}
