// The words of the run.
ghost use Rattle.aeth_demo.specs.Draws.{generator_modulus};
ghost use Rattle.aeth_demo.specs.Limits.{demo_words};
ghost use Rattle.aeth_demo.specs.Pieces.{texts_below};
ghost use Rattle.aeth_demo.specs.Traces.{word_row, word_text, words_from};
ghost use Rattle.std.specs.Prelude.{◌≡◌, ◌<◌, ◌++◌, IfOk, OnOk};

use crate::draws::{next_number, part_of};
use crate::pieces::{push_labelled, push_text};
use aeth_base::NoMemory;
use std::alloc::Global;

/// The connections on which words are offered.
const CONNECTIONS: u32 = 64;

/// The words.
const WORDS: u32 = 10_000;

/// The file of words that are drawn from a number on.
#[tactic(auto, unfolding(crate::specs::Traces::words_from))]
pub(crate) fn words_from(alloc: Global, x: u32) -> Result<Vec<u8>, NoMemory>
    requires { x < generator_modulus }
    ensures { IfOk result (λ text. text.items ≡ words_from x) }
{
    let mut text = Vec::new(alloc);
    push_text(&mut text, "connection,side,cycle,value\n")?;
    push_words(&mut text, x)?;
    Ok(text)
}

// Appends all words.
fn push_words(text: &mut Vec<u8>, first: u32) -> Result<(), NoMemory>
    requires { first < generator_modulus }
    ensures { OnOk result (text.new.items
        ≡ text.old.items ++ texts_below (word_text first) demo_words) }
{
    let mut x = first;
    for i in 0..WORDS {
        x = next_number(x);
        push_word(text, part_of(CONNECTIONS, x), i)?;
    }
    Ok(())
}

// Appends a word.
fn push_word(text: &mut Vec<u8>, connection: u32, i: u32) -> Result<(), NoMemory>
    requires { i < demo_words }
    ensures { OnOk result (text.new.items ≡ text.old.items ++ word_row connection i) }
{
    push_labelled(text, "c", connection)?;
    push_labelled(text, ",fwd,", 2 * i)?;
    push_labelled(text, ",", i)?;
    text.push(b'\n')?;
    Ok(())
}
