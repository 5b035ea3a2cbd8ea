//! What acknowledgements come to.

/// What the acknowledgement of an effect comes to.
#[derive(Clone, Copy, Debug, PartialEq, Eq)]
pub enum Settled {
    /// The effects of the lane up to this one are settled.
    Upto(u64),
    /// It was settled before: the number of the last one that is.
    Old(u64),
}
