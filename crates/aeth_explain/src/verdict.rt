// What is found of a certificate.

use aeth_base::Path;

/// What is found of a certificate.
#[derive(Clone, Copy)]
pub enum CutVerdict {
    /// Each path that the try may take begins with a cut, and all that is listed is a cut.
    Complete,
    /// A listed path is no cut, the first of them, counted from 1.
    NotDead { cut: u32 },
    /// All that is listed is a cut, and this path, which the try may take, begins with none: the least
    /// of them in the order of a dictionary, by link numbers.
    Open { path: Path },
}
