/// One of the three lists of slots.
#[derive(Clone, Copy, Debug, PartialEq, Eq)]
pub enum Which {
    Free,
    Claimed,
    Ready,
}
