// Numbers and their ranges.
ghost use Rattle.std.specs.Prelude.{◌≡◌, pos};
ghost use Rattle.aeth_document.specs.Walks.{outside, size_of};

use aeth_base::Shown;

/// A number, 0 for one below 0.
pub fn size(number: i64) -> u64
    ensures { result ≡ size_of number }
{
    match u64::try_from(number) {
        Ok(size) => size,
        Err(_) => 0,
    }
}

/// A number that is out of its range.
pub fn outside(low: u64, high: u64, number: i64) -> Option<Shown>
    ensures { result ≡ outside low high number }
{
    match u64::try_from(number) {
        Ok(n) => {
            if low <= n && n <= high {
                None
            } else {
                Some(Shown::Number(n))
            }
        }
        Err(_) => Some(Shown::Odd),
    }
}

/// A count that is out of its range.
pub fn count_outside(low: u64, high: u64, count: usize) -> Option<Shown>
    ensures { result ≡ outside low high (pos count) }
{
    let count = count as u64;
    if low <= count && count <= high {
        None
    } else {
        Some(Shown::Number(count))
    }
}
