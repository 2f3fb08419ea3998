// What is told of a run of a chain.
ghost use Rattle.std.specs.Prelude.{◌≡◌, ◌<◌, [], length};
ghost use Rattle.std.specs.List.{slice_index_or};

use crate::passing::Offer;
use aeth_report::Landing;
use std::marker::Model;

/// A run of a chain: what is offered on each channel within the run, the landings on the last channel in
/// the order of the words, and how many words of the first channel didn't land there.
#[derive(Drop)]
pub struct ChainLog {
    pub(crate) offers: Vec<Vec<Offer>>,
    pub(crate) landings: Vec<Landing>,
    pub(crate) left: u32,
}

impl Model for ChainLog {
    ghost use Rattle.std.specs.Prelude.{map};
    ghost use Rattle.aeth_chain.specs.ChainRun.{ChainData};

    ghost Value = { ChainData };

    ghost view = { λ log. record {
      offers = map (λ list. list.items) log.offers.items;
      landings = log.landings.items;
      left = log.left;
    } };
}

impl ChainLog {
    /// What is offered on the channel of an item, counted from 0, within the run.
    pub fn offers(&self, item: u32) -> &[Offer]
        requires { item < length self.now.offers }
        ensures { result.now ≡ slice_index_or self.now.offers item [] }
    {
        &self.offers[item as usize]
    }

    /// The landings on the last channel. Each tells in which cycle its word was offered on the first
    /// channel, and by which cycle the chain owes it.
    pub fn landings(&self) -> &[Landing]
        ensures { result.now ≡ self.now.landings }
    {
        &self.landings
    }

    /// How many words that were offered on the first channel within the run didn't land on the last.
    pub fn left(&self) -> u32
        ensures { result ≡ self.now.left }
    {
        self.left
    }
}
