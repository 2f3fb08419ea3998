// The fields of a row.
ghost use Rattle.std.specs.Prelude.{◌≡◌, option_map};
ghost use Rattle.csv.specs.Records.{fields_of};
ghost use Rattle.aeth_trace.specs.Fields.{all_four, channel_in, four_of, heads_channels, named};
ghost use Rattle.aeth_trace.specs.Fields.{number_to, three_of, three_with};
ghost use Rattle.aeth_trace.specs.Found.{AreFound};
ghost use Rattle.aeth_trace.specs.Switches.{use_names};
ghost use Rattle.aeth_trace.specs.Words.{connection_names};

use crate::found::{Found, connection_named};
use aeth_app::App;
use aeth_base::{Channel, ConnId, MAX_CYCLES, Name, read_number};
use aeth_text::side_in;
use csv::ByteRecord;

// Three fields, where they are there and a fourth isn't.
fn three_with<'a>(
    a: Option<&'a [u8]>,
    b: Option<&'a [u8]>,
    c: Option<&'a [u8]>,
    d: Option<&'a [u8]>,
) -> Option<(&'a [u8], &'a [u8], &'a [u8])>
    ensures { option_map (λ p. (p.0.now, p.1.now, p.2.now)) result ≡ three_with
        (option_map (λ s. s.now) a.entry) (option_map (λ s. s.now) b.entry)
        (option_map (λ s. s.now) c.entry) (option_map (λ s. s.now) d.entry) }
{
    match (a, b, c, d) {
        (Some(a), Some(b), Some(c), None) => Some((a, b, c)),
        _ => None,
    }
}

// The fields of a record that has just three.
pub(crate) fn three_of(fields: &ByteRecord) -> Option<(&[u8], &[u8], &[u8])>
    ensures { option_map (λ p. (p.0.now, p.1.now, p.2.now)) result
        ≡ three_of (fields_of fields.now) }
{
    three_with(fields.get(0), fields.get(1), fields.get(2), fields.get(3))
}

// Four fields, where they are there.
fn all_four<'a>(
    a: Option<&'a [u8]>,
    b: Option<&'a [u8]>,
    c: Option<&'a [u8]>,
    d: Option<&'a [u8]>,
) -> Option<(&'a [u8], &'a [u8], &'a [u8], &'a [u8])>
    ensures { option_map (λ p. (p.0.now, p.1.now, p.2.now, p.3.now)) result ≡ all_four
        (option_map (λ s. s.now) a.entry) (option_map (λ s. s.now) b.entry)
        (option_map (λ s. s.now) c.entry) (option_map (λ s. s.now) d.entry) }
{
    match (a, b, c, d) {
        (Some(a), Some(b), Some(c), Some(d)) => Some((a, b, c, d)),
        _ => None,
    }
}

// The fields of a record that has just four: it has no fifth.
pub(crate) fn four_of(fields: &ByteRecord) -> Option<(&[u8], &[u8], &[u8], &[u8])>
    ensures { option_map (λ p. (p.0.now, p.1.now, p.2.now, p.3.now)) result
        ≡ four_of (fields_of fields.now) }
{
    if fields.get(4).is_none() {
        all_four(fields.get(0), fields.get(1), fields.get(2), fields.get(3))
    } else {
        None
    }
}

/// The number, at most so great, whose canonical decimal text this is: digits alone, with no leading
/// zero but in `0`. `None` exactly where the text is no such decimal.
pub fn number_to(most: u32, text: &[u8]) -> Option<u32>
    ensures { result ≡ number_to most text.now }
{
    match read_number(text) {
        None => None,
        Some(number) => {
            if number <= most as u64 {
                Some(number as u32)
            } else {
                None
            }
        }
    }
}

// The number of the use case of this name; the number of use cases, where none has it.
pub(crate) fn use_named(app: &App, text: &[u8]) -> u32
    ensures { result ≡ named (use_names app.now) text.now }
{
    match Name::new(text) {
        None => app.uses(),
        Some(name) => match app.find_use(&name) {
            None => app.uses(),
            Some(one) => one.0,
        },
    }
}

// Whether the record is the header of the columns of channels, of which the last has this name.
pub(crate) fn heads_channels(fields: &ByteRecord, last: &[u8]) -> bool
    ensures { result ≡ heads_channels last.now (four_of (fields_of fields.now)) }
{
    match four_of(fields) {
        None => false,
        Some((connection, side, cycle, number)) => {
            connection == b"connection".as_slice()
                && side == b"side".as_slice()
                && cycle == b"cycle".as_slice()
                && number == last
        }
    }
}

// The channel, the cycle and the number, at most so great, of a row of four fields.
pub(crate) fn channel_in(
    app: &App,
    found: &mut [Option<Found>],
    fields: &ByteRecord,
    most: u32,
) -> Option<(Channel, u32, u32)>
    requires { AreFound (connection_names app.now) found.old }
    ensures channel { result
        ≡ channel_in (connection_names app.now) most (four_of (fields_of fields.now)) }
    ensures found { AreFound (connection_names app.now) found.new }
{
    match four_of(fields) {
        None => None,
        Some((connection, side, cycle, number)) => {
            let conn = ConnId(connection_named(app, found, connection));
            match (
                side_in(side),
                number_to(MAX_CYCLES, cycle),
                number_to(most, number),
            ) {
                (Some(side), Some(cycle), Some(number)) => {
                    Some((Channel { conn, side }, cycle, number))
                }
                _ => None,
            }
        }
    }
}
