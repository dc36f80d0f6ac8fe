// The terms of a balance: what they are decides, with its size, which fills it admits.
use crate::kind::Kind;

#[derive(Clone, Copy, PartialEq, Eq, Debug)]
pub struct Terms {
    pub kind: Kind,
    // The smallest fill of a minimum-quantity balance, else 0. It stands in no case of the kind, which
    // would allow less: an edition may answer, and a write may write, any minimum with any kind.
    pub minimum: u32,
}
