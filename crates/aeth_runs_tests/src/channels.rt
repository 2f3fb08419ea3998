// The words and the pulls of each channel, from cycle to cycle.
use crate::two::two;
use aeth_app::App;
use aeth_base::{Channel, ConnId, Side};
use aeth_trace::{Receivers, Words, pull, read_receivers, read_words};
use std::alloc::Global;
use std::test::Fail;

const WORDS: &[u8] = b"connection,side,cycle,value
c0,fwd,0,5
c1,back,0,6
c0,fwd,0,7
c0,back,3,8
c0,fwd,4,9
";

const RECEIVERS: &[u8] = b"connection,side,cycle,pull
c0,fwd,0,0
c0,back,3,9
c0,fwd,5,7
c1,fwd,6,1
c0,fwd,8,3
c0,fwd,8,4
";

fn words(alloc: Global, app: &App) -> Result<Words, Fail> {
    match read_words(alloc, WORDS, app) {
        Ok(words) => Ok(words),
        Err(_) => Err(Fail::from("words")),
    }
}

fn receivers(alloc: Global, app: &App) -> Result<Receivers, Fail> {
    match read_receivers(alloc, RECEIVERS, app) {
        Ok(receivers) => Ok(receivers),
        Err(_) => Err(Fail::from("receivers")),
    }
}

fn channel(conn: u32, side: Side) -> Channel {
    Channel {
        conn: ConnId(conn),
        side,
    }
}

fn push_number(alloc: Global, text: &mut String, number: usize) -> Result<(), Fail> {
    let digits = format!(in alloc; "{number}")?;
    text.push_str(digits.as_str())?;
    Ok(())
}

/// Pushes the values of a channel's words, in their order.
fn push_values(
    alloc: Global,
    text: &mut String,
    words: &Words,
    channel: Channel,
) -> Result<(), Fail> {
    for place in 0..words.count_on(channel) {
        let word = words.nth_word(channel, place);
        push_number(alloc, text, word.value as usize)?;
    }
    Ok(())
}

/// Pushes how many words of a channel are offered up to each of the first six cycles.
fn push_offered(
    alloc: Global,
    text: &mut String,
    words: &Words,
    channel: Channel,
) -> Result<(), Fail> {
    let mut known = 0;
    for cycle in 0..6 {
        known = words.offered(channel, cycle, known);
        push_number(alloc, text, known)?;
    }
    Ok(())
}

/// Pushes what a channel's receiver takes in each of the first ten cycles, and in the last of all.
fn push_pulls(
    alloc: Global,
    text: &mut String,
    receivers: &Receivers,
    channel: Channel,
) -> Result<(), Fail> {
    for cycle in 0..10 {
        push_number(alloc, text, pull(receivers, channel, cycle) as usize)?;
    }
    push_number(alloc, text, pull(receivers, channel, 1_000_000) as usize)
}

/// Pushes what it takes in each of the first ten cycles, as a run asks from cycle to cycle.
fn push_next_pulls(
    alloc: Global,
    text: &mut String,
    receivers: &Receivers,
    channel: Channel,
) -> Result<(), Fail> {
    let mut known = 0;
    for cycle in 0..10 {
        let taken = receivers.next_pull(channel, cycle, &mut known);
        push_number(alloc, text, taken as usize)?;
    }
    Ok(())
}

/// Pushes all of these, each after a space.
fn push_told(
    alloc: Global,
    text: &mut String,
    words: &Words,
    receivers: &Receivers,
    channel: Channel,
) -> Result<(), Fail> {
    push_values(alloc, text, words, channel)?;
    text.push_str(" ")?;
    push_offered(alloc, text, words, channel)?;
    text.push_str(" ")?;
    push_pulls(alloc, text, receivers, channel)?;
    text.push_str(" ")?;
    push_next_pulls(alloc, text, receivers, channel)
}

/// Whether all of these, each after a space, are the answer.
fn is_told(
    alloc: Global,
    words: &Words,
    receivers: &Receivers,
    channel: Channel,
    answer: &str,
) -> Result<bool, Fail> {
    let mut text = String::new(alloc);
    push_told(alloc, &mut text, words, receivers, channel)?;
    Ok(text.as_str() == answer)
}

/// What is told of each channel.
static CHANNELS: [(u32, Side, &str); 4] = [
    (0, Side::Fwd, "579 222233 00000777444 0000077744"),
    (0, Side::Back, "8 000111 22299999999 2229999999"),
    (1, Side::Fwd, " 000000 22222211111 2222221111"),
    (1, Side::Back, "6 111111 22222222222 2222222222"),
];

/// The answer of the first channel of which another is told.
fn first_other_answer(
    alloc: Global,
    words: &Words,
    receivers: &Receivers,
) -> Result<Option<&'static str>, Fail> {
    for &(conn, side, answer) in &CHANNELS {
        if !is_told(alloc, words, receivers, channel(conn, side), answer)? {
            return Ok(Some(answer));
        }
    }
    Ok(None)
}

/// The same, where the words and the receivers are those of the application.
fn first_other_answer_of(alloc: Global, app: &App) -> Result<Option<&'static str>, Fail> {
    let words = words(alloc, app)?;
    let receivers = receivers(alloc, app)?;
    first_other_answer(alloc, &words, &receivers)
}

/// The same, where the application is read too.
fn first_other_answer_of_two(alloc: Global) -> Result<Option<&'static str>, Fail> {
    let app = two(alloc)?;
    first_other_answer_of(alloc, &app)
}

#[test]
fn channels_have_their_words_and_pulls(rt: HostRuntime) -> Result<(), Fail> {
    let other = first_other_answer_of_two(rt.alloc())?;
    assert_eq!(rt; other, None);
    Ok(())
}
