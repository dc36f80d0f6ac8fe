// What a member sends, as it stands on the wire: numbers and letters that nobody has checked yet. They
// are bytes, since a check refuses a wrong one by its field.
#[derive(Clone, Copy, PartialEq, Eq, Debug)]
pub struct Entry {
    pub member: u32,
    pub side: u8,
    // In thousandths of one per cent of par.
    pub price: u32,
    pub quantity: u32,
    pub kind: u8,
    pub minimum: u32,
    pub time: u8,
    pub designation: u8,
    pub date: u32,
}

#[derive(Clone, Copy, PartialEq, Eq, Debug)]
pub struct Cancel {
    pub member: u32,
    pub serial: u64,
}
