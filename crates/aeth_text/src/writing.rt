// Writing a line from its end on, so that it can be appended at once.
ghost use Rattle.aeth_text.specs.Limits.{field_room};
ghost use Rattle.std.specs.Prelude.{◌≡◌, ◌+◌, ◌≤◌, ◌++◌, ◌∷◌, decimal, drop, length, take};

use itoa::write_digits;

/// Writes a text so that it ends at a place of the line, and gives the place at which it begins.
/// What stands before and behind it stays.
pub fn write_text(line: &mut [u8], text: &[u8], end: usize) -> usize
    requires least { length text.now ≤ end }
    requires most { end ≤ length line.old }
    ensures written { drop result line.new ≡ text.now ++ drop end line.old }
    ensures front { take result line.new ≡ take result line.old }
    ensures before { result ≤ end }
{
    let start = end - text.len();
    line[start..end].copy_from_slice(text);
    start
}

/// Writes a number, and a byte behind it, so that they end at a place of the line, and gives the
/// place at which they begin. What stands before and behind them stays.
pub fn write_field(line: &mut [u8], number: u64, after: u8, end: usize) -> usize
    requires least { field_room ≤ end }
    requires most { end ≤ length line.old }
    ensures written { drop result line.new ≡ decimal number ++ after ∷ drop end line.old }
    ensures front { take result line.new ≡ take result line.old }
    ensures before { result ≤ end }
    ensures within { end ≤ result + field_room }
{
    line[end - 1] = after;
    write_digits(number, line, end - 1)
}
