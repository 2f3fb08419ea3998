// Connections that were found by their names, so that these are seldom looked for again.
ghost use Rattle.std.specs.Prelude.{◌≡◌, ℕ, IfOk, IfSome, List};
ghost use Rattle.aeth_trace.specs.Fields.{named};
ghost use Rattle.aeth_trace.specs.Found.{AreFound};
ghost use Rattle.aeth_trace.specs.Words.{connection_names};

use aeth_app::App;
use aeth_base::{Name, NoMemory};
use std::alloc::Global;

// How many names are kept at most.
const PLACES: usize = 4_096;

/// A name, and the number of the connection that has it: the number of connections, where none has.
#[derive(Clone, Copy)]
pub(crate) struct Found {
    pub name: Name,
    pub number: u32,
}

// The place at which a name is kept. Names that differ in a number seldom share one.
fn place_of(text: &[u8]) -> usize {
    let mut place: usize = 0;
    for byte in text {
        place = place.wrapping_mul(11).wrapping_add(*byte as usize);
    }
    place % PLACES
}

/// Places for names, at which none is kept.
pub(crate) fn none_found(alloc: Global, app: &App) -> Result<Vec<Option<Found>>, NoMemory>
    ensures { IfOk result (λ found. AreFound (connection_names app.now) found.items) }
{
    Ok(vec![in alloc; None; PLACES]?)
}

// The number that is kept with a name at a place.
fn number_at(found: &[Option<Found>], place: usize, text: &[u8]) -> Option<u32>
    ensures { IfSome result (λ number. (names : List (List ℕ)) → AreFound names found.now
        → number ≡ named names text.now) }
{
    match found.get(place) {
        Some(Some(one)) => {
            if one.name.as_bytes() == text {
                Some(one.number)
            } else {
                None
            }
        }
        _ => None,
    }
}

// The number of the connection of this name; the number of connections, where none has it.
fn number_named(app: &App, text: &[u8]) -> u32
    ensures { result ≡ named (connection_names app.now) text.now }
{
    match Name::new(text) {
        None => app.connections(),
        Some(name) => match app.find_connection(&name) {
            None => app.connections(),
            Some(connection) => connection.0,
        },
    }
}

// Keeps the number of a text at a place, where the text is a name.
#[tactic(auto, using(crate::proofs::FoundLemmas::name_of_text))]
fn keep(found: &mut [Option<Found>], place: usize, text: &[u8], number: u32)
    ensures { (names : List (List ℕ)) → AreFound names found.old → number ≡ named names text.now
        → AreFound names found.new }
{
    if let Some(name) = Name::new(text) {
        if place < found.len() {
            found[place] = Some(Found { name, number });
        }
    }
}

/// The number of the connection of this name; the number of connections, where none has it. It is
/// kept with the name.
pub(crate) fn connection_named(app: &App, found: &mut [Option<Found>], text: &[u8]) -> u32
    requires { AreFound (connection_names app.now) found.old }
    ensures number { result ≡ named (connection_names app.now) text.now }
    ensures found { AreFound (connection_names app.now) found.new }
{
    let place = place_of(text);
    if let Some(number) = number_at(found, place, text) {
        return number;
    }
    let number = number_named(app, text);
    keep(found, place, text, number);
    number
}
