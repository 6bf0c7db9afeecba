// How a block is coded.

// A standard's number, a side and a step. Each may have any value, since what no standard has is refused by a number: so
// these are no enums.
#[derive(Clone, Copy, PartialEq, Eq, Debug)]
pub struct Mode {
    pub standard: u32,
    pub side: usize,
    pub step: u32,
}
