// What a connection needs in slots.
ghost use Rattle.std.specs.Prelude.{◌≡◌, ◌≤◌};
ghost use Rattle.aeth_app.specs.App.{IsWish};
ghost use Rattle.aeth_app.specs.Rates.{credit_need, need_of, own_need};
ghost use Rattle.aeth_base.specs.Limits.{max_slots};

use crate::connection::{Connection, Wish};
use aeth_base::{CREDITS_PER_FLIT, Side, WORDS_PER_FLIT};

fn own_need(slots: u32, wish: &Wish) -> u32
    requires some { 1 ≤ slots }
    requires slots { slots ≤ max_slots }
    requires wish { IsWish wish.now }
    ensures need { result ≡ own_need slots wish.now }
    ensures within { result ≤ slots }
{
    let words = wish.words as u64 * slots as u64;
    let need = words.div_ceil(WORDS_PER_FLIT as u64 * wish.per as u64);
    need.max(1) as u32
}

fn credit_need(need: u32) -> u32
    requires { need ≤ max_slots }
    ensures { result ≡ credit_need need }
{
    (WORDS_PER_FLIT * need).div_ceil(CREDITS_PER_FLIT)
}

/// What a channel needs, in slots of a table of this size.
#[tactic(auto, unfolding(crate::specs::Rates::need_of))]
pub(crate) fn need_of(slots: u32, connection: &Connection, side: Side) -> u32
    requires some { 1 ≤ slots }
    requires slots { slots ≤ max_slots }
    requires fwd { IsWish connection.now.fwd }
    requires back { IsWish connection.now.back }
    ensures need { result ≡ need_of slots connection.now side }
    ensures some { 1 ≤ result }
    ensures within { result ≤ slots }
{
    let fwd = own_need(slots, &connection.fwd);
    let back = own_need(slots, &connection.back).max(credit_need(fwd));
    match side {
        Side::Fwd => fwd.max(credit_need(back)),
        Side::Back => back,
    }
}
