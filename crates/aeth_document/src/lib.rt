//! What chip files and application files share: the fields of a TOML table, the least wrong key,
//! values at keys, and walks over names and numbers that stop at the first broken check.
#![tactic(auto)]

mod document;
mod keys;
mod names;
mod ranges;
mod tables;
mod values;
mod walk;

pub use aeth_base::{Broken, Shown, shown_text};
pub use document::read_document;
pub use keys::{Field, Kind, wrong_key};
pub use names::{names_of, no_name, place_of, repeated, repeats};
pub use ranges::{count_outside, outside, size};
pub use tables::{Tables, Texts};
pub use values::{integer_at, integer_if, table_at, tables_at, text_at, text_if, texts_at};
pub use walk::Walk;
