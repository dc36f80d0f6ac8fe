// The sessions of a day in which an order may trade.
ghost use Rattle.orders.specs.Codes.{Decodes, Encodes};
ghost use Rattle.orders.specs.Phases.{all_sessions, designation_of};

use crate::code::UnknownCode;

#[derive(Clone, Copy, PartialEq, Eq, Debug)]
pub struct Sessions {
    pub opening: bool,
    pub core: bool,
    pub late: bool,
}

// The designation of these sessions: 1 for Opening, 2 for Core and 4 for Late, added up.
impl From<Sessions> for u8 {
    ghost from_gives = { Encodes designation_of all_sessions };

    fn from(sessions: Sessions) -> u8 {
        u8::from(sessions.opening) + 2 * u8::from(sessions.core) + 4 * u8::from(sessions.late)
    }
}

// The sessions of a designation, which is at most 7.
impl TryFrom<u8> for Sessions {
    type Error = UnknownCode;

    ghost try_from_gives = { Decodes designation_of all_sessions };

    fn try_from(designation: u8) -> Result<Sessions, UnknownCode> {
        if designation > 7 {
            return Err(UnknownCode { code: designation });
        }
        Ok(Sessions {
            opening: designation % 2 == 1,
            core: designation / 2 % 2 == 1,
            late: designation / 4 == 1,
        })
    }
}
