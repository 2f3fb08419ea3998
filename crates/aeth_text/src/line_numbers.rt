// The numbers of lines.
ghost use Rattle.aeth_text.specs.Order.{line_after};
ghost use Rattle.std.specs.Prelude.{◌≡◌};

/// The number that the last lines of a longer text share.
const LAST_LINE: u32 = 4_294_967_295;

/// The number of the line so many lines after a line. Past 4,294,967,295, which no file reaches,
/// line numbers stand still.
pub fn line_after(line: u32, count: usize) -> u32
    ensures { result ≡ line_after line count }
{
    if count <= (LAST_LINE - line) as usize {
        line + count as u32
    } else {
        LAST_LINE
    }
}
