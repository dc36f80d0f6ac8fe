// What an edition is told of an auction. The bonds of each side lie one by one in rank order, and the
// cut is behind the V-th of each, V being the bonds that trade.

// A price and the bonds at it.
#[derive(Clone, Copy, PartialEq, Eq, Debug)]
pub struct Level {
    pub price: u32,
    pub bonds: u64,
}

// One side of a cut.
#[derive(Clone, Copy, PartialEq, Eq, Debug)]
pub struct CutSide {
    // The price of the V-th bond, or 0 where V is 0: no Option, as it is not asked for then, and each
    // answer would have to unwrap it.
    pub last: u32,
    // The price of the bond after the V-th, if there is one.
    pub next: Option<u32>,
    // The side's best price and the bonds at it, if it has any.
    pub best: Option<Level>,
}

#[derive(Clone, Copy, PartialEq, Eq, Debug)]
pub struct Cut {
    // V.
    pub volume: u64,
    pub bids: CutSide,
    pub offers: CutSide,
}
