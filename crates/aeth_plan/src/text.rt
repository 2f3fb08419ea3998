// A plan text without its names' meaning: what the lines say.
use crate::starts::Starts;
use aeth_base::{Name, Path, Side};
use std::marker::Model;

/// What a `seat` line says.
#[derive(Clone, Copy)]
pub(crate) struct SeatText {
    pub core: Name,
    pub ni: Name,
    pub seat: u32,
}

/// What a `grant` line says.
#[derive(Drop)]
pub(crate) struct GrantText {
    pub conn: Name,
    pub group: u32,
    pub side: Side,
    pub links: Path,
    pub starts: Starts,
}

impl Model for GrantText {
    ghost use Rattle.std.specs.Prelude.{IsTrue};
    ghost use Rattle.aeth_text.specs.Fields.{are_ascending};
    ghost use Rattle.aeth_plan.specs.Lines.{GrantWords};

    ghost Value = { GrantWords };

    ghost view = { λ grant. record {
      conn = grant.conn;
      group = grant.group;
      side = grant.side;
      links = grant.links;
      starts = grant.starts;
    } };

    // Each start is greater than the one before.
    ghost invariant = { λ grant. IsTrue (are_ascending grant.starts) };
}

/// What the lines of a plan text say.
#[derive(Drop)]
pub(crate) struct PlanText {
    pub slots: u32,
    pub seats: Vec<SeatText>,
    pub grants: Vec<GrantText>,
}

impl Model for PlanText {
    ghost use Rattle.aeth_plan.specs.Lines.{PlanWords};

    ghost Value = { PlanWords };

    ghost view = { λ text. record {
      slots = text.slots;
      seats = text.seats.items;
      grants = text.grants.items;
    } };
}
