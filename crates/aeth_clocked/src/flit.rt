// What a link carries in one cycle.

/// A flit: one header word and up to two payload words, after Æthereal (2005).
///
/// The header's payload count says how many words there are; an absent word is 0.
#[derive(Clone, Copy, Debug, PartialEq)]
pub struct Flit {
    /// The header word.
    pub header: u32,
    /// The first payload word.
    pub first: u32,
    /// The second payload word.
    pub second: u32,
}
