// What the traces say, below the end of a run.

ghost use Rattle.std.specs.Prelude.{◌≡◌, ◌<◌, All, IfOk, filter, map, nat_lt};
ghost use Rattle.aeth_app.specs.Limits.{max_connections};
ghost use Rattle.aeth_stimuli.specs.Stimuli.{offer_of, take_of};

use aeth_base::NoMemory;
use aeth_schedule::number_of;
use aeth_trace::{PullRow, WordRow};
use std::alloc::Global;
use std::marker::Model;

// A word is offered to the channel of a number in a cycle.
#[derive(Clone, Copy)]
pub(crate) struct Offered {
    pub cycle: u32,
    pub number: u32,
}

impl Model for Offered {
    ghost use Rattle.aeth_stimuli.specs.Stimuli.{Offer};

    ghost Value = { Offer };

    ghost view = { λ one. record { cycle = one.cycle; number = one.number } };

    ghost inverse = { λ one. record { cycle = one.cycle; number = one.number } };
}

// The receiver of the channel of a number takes so many words in a cycle, at most, from a cycle on.
#[derive(Clone, Copy)]
pub(crate) struct Taking {
    pub cycle: u32,
    pub number: u32,
    pub pull: u32,
}

impl Model for Taking {
    ghost use Rattle.aeth_stimuli.specs.Stimuli.{Take};

    ghost Value = { Take };

    ghost view = { λ one. record { cycle = one.cycle; number = one.number; pull = one.pull } };

    ghost inverse = { λ one. record { cycle = one.cycle; number = one.number; pull = one.pull } };
}

// The words that are offered within a run, in file order.
pub(crate) fn offers_of(
    alloc: Global,
    words: &[WordRow],
    cycles: u32,
) -> Result<Vec<Offered>, NoMemory>
    requires { All (λ row. row.channel.conn.0 < max_connections) words.now }
    ensures { IfOk result (λ offers. offers.items
        ≡ map offer_of (filter (λ row. nat_lt row.cycle cycles) words.now)) }
{
    let mut offers = Vec::new(alloc);
    for row in words {
        if row.cycle < cycles {
            offers.push(Offered {
                cycle: row.cycle,
                number: number_of(row.channel),
            })?;
        }
    }
    Ok(offers)
}

// The rows of receivers within a run, in file order.
pub(crate) fn takes_of(
    alloc: Global,
    pulls: &[PullRow],
    cycles: u32,
) -> Result<Vec<Taking>, NoMemory>
    requires { All (λ row. row.channel.conn.0 < max_connections) pulls.now }
    ensures { IfOk result (λ takes. takes.items
        ≡ map take_of (filter (λ row. nat_lt row.cycle cycles) pulls.now)) }
{
    let mut takes = Vec::with_capacity(alloc, pulls.len())?;
    for row in pulls {
        if row.cycle < cycles {
            takes.push(Taking {
                cycle: row.cycle,
                number: number_of(row.channel),
                pull: row.pull,
            })?;
        }
    }
    Ok(takes)
}
