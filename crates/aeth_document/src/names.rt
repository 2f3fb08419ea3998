// Names in files.
ghost use Rattle.std.specs.Prelude.{◌≡◌, ◌<◌, ◌^◌, ◌++◌, ◌∷◌, [], length, map, not, take};
ghost use Rattle.std.specs.Prelude.{IfOk, IsSome, OnErr, OnOk, None};
ghost use Rattle.std.specs.List.{filter_map, list_any};
ghost use Rattle.std.specs.Str.{bytes_eq};
ghost use Rattle.aeth_base.specs.Name.{name_of};
ghost use Rattle.indexmap.specs.IndexSet.{insert_key};
ghost use Rattle.aeth_document.specs.Arrays.{texts_in};
ghost use Rattle.aeth_document.specs.Walks.{found_by, no_name, place_of, repeated, repeats, walked};

use crate::tables::Texts;
use crate::walk::Walk;
use aeth_base::{Name, Names, NoMemory, Shown, shown_text};
use indexmap::IndexSet;
use std::alloc::Global;

/// A text that is no name.
pub fn no_name(text: &str) -> Option<Shown>
    ensures { result ≡ no_name text.now }
{
    match Name::new(text.as_bytes()) {
        Some(_) => None,
        None => Some(Shown::Odd),
    }
}

/// Those of the texts that are names, in their order.
pub fn names_of(alloc: Global, texts: Texts<'_>) -> Result<Names, NoMemory>
    ensures { IfOk result (λ names. names ≡ filter_map name_of (texts_in texts.entry)) }
{
    let list = list_of(alloc, texts)?;
    Names::of(alloc, list)
}

// The same as a list.
fn list_of(alloc: Global, texts: Texts<'_>) -> Result<Vec<Name>, NoMemory>
    ensures { IfOk result (λ list. list.items ≡ filter_map name_of (texts_in texts.entry)) }
{
    let mut list = Vec::with_capacity(alloc, texts.values_left())?;
    for text in texts {
        if let Some(name) = Name::new(text.as_bytes()) {
            list.push(name)?;
        }
    }
    Ok(list)
}

// Puts a text at the end of a set where it is new, and says whether it is.
fn add_text<'a>(seen: &mut IndexSet<&'a str>, text: &'a str) -> Result<bool, NoMemory>
    ensures new { IfOk result (λ new. new
        ≡ not (list_any (bytes_eq text.now) (map (λ t. t.now) seen.old.keys))) }
    ensures keys { OnOk result (map (λ t. t.now) seen.new.keys
        ≡ insert_key bytes_eq (map (λ t. t.now) seen.old.keys) text.now) }
    ensures err { OnErr result (map (λ t. t.now) seen.new.keys ≡ map (λ t. t.now) seen.old.keys) }
{
    let (_, is_new) = seen.insert_full(text)?;
    Ok(is_new)
}

/// A text that is among those of a set, which then stays as it was. A new one is put at the set's end.
/// Where memory is wanting, the set's texts stay as they were.
pub fn repeated<'a>(seen: &mut IndexSet<&'a str>, text: &'a str) -> Result<Option<Shown>, NoMemory>
    ensures shown { IfOk result (λ shown. shown
        ≡ repeated (map (λ t. t.now) seen.old.keys) text.now) }
    ensures seen { IfOk result (λ shown. shown ≡ None
        → map (λ t. t.now) seen.new.keys ≡ map (λ t. t.now) seen.old.keys ++ text.now ∷ []) }
    ensures known { IfOk result (λ shown. IsSome shown
        → map (λ t. t.now) seen.new.keys ≡ map (λ t. t.now) seen.old.keys) }
    ensures err { OnErr result (map (λ t. t.now) seen.new.keys ≡ map (λ t. t.now) seen.old.keys) }
{
    if add_text(seen, text)? {
        Ok(None)
    } else {
        Ok(Some(shown_text(text)))
    }
}

/// The walk after a check of each text, which is to differ from those of a set and from the texts
/// before it. The texts are put at the set's end, up to the first that is broken. Where one is, or memory is
/// wanting, those that the set had stand at its front still.
pub fn repeats<'a>(
    walk: Walk,
    seen: &mut IndexSet<&'a str>,
    texts: Texts<'a>,
) -> Result<Walk, NoMemory>
    ensures walk { IfOk result (λ after. after
        ≡ walked walk (repeats (map (λ t. t.now) seen.old.keys) (texts_in texts.entry))) }
    ensures seen { IfOk result (λ after. found_by after ≡ None
        → map (λ t. t.now) seen.new.keys ≡ map (λ t. t.now) seen.old.keys ++ texts_in texts.entry) }
    ensures front { take (length seen.old.keys) (map (λ t. t.now) seen.new.keys)
        ≡ map (λ t. t.now) seen.old.keys }
{
    let mut walk = walk;
    for text in texts {
        walk = walk.check(repeated(seen, text)?);
        if !walk.goes_on() {
            return Ok(walk);
        }
    }
    Ok(walk)
}

/// The place of a text among names.
pub fn place_of(names: &Names, text: &str) -> Option<u32>
    requires { length names.now < 2 ^ 32 }
    ensures { result ≡ place_of names.now text.now }
{
    match Name::new(text.as_bytes()) {
        Some(name) => match names.place(&name) {
            Some(place) => Some(place as u32),
            None => None,
        },
        None => None,
    }
}
