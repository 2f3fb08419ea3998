// A channel's try.
ghost use Rattle.std.specs.Prelude.{◌≡◌};
ghost use Rattle.aeth_paths.specs.Trials.{Ascend, IsTrial};

use crate::request::Request;
use aeth_base::NiId;
use aeth_group::Grant;
use std::marker::Model;

/// A channel's try, told without a book: what the channel asks; its turn, counted from 1; the grants
/// that were made before it, in their order; and the interfaces from which and to which it may lead.
/// `crowded` are those that are said to have room for one of its two cores and not for both.
///
/// Each list of interfaces ascends. Nothing is asked of the grants, which may meet.
#[derive(Drop)]
pub struct Trial {
    ask: Request,
    turn: u32,
    grants: Vec<Grant>,
    from: Vec<NiId>,
    to: Vec<NiId>,
    crowded: Vec<NiId>,
}

impl Model for Trial {
    ghost use Rattle.aeth_paths.specs.Trials.{IsTrial, TrialData};

    ghost Value = { TrialData };

    ghost view = { λ trial. record {
      ask = trial.ask;
      turn = trial.turn;
      grants = trial.grants.items;
      from = trial.from.items;
      to = trial.to.items;
      crowded = trial.crowded.items;
    } };

    ghost invariant = { λ trial. IsTrial (record {
      ask = trial.ask;
      turn = trial.turn;
      grants = trial.grants.items;
      from = trial.from.items;
      to = trial.to.items;
      crowded = trial.crowded.items;
    }) };
}

impl Trial {
    /// The try with these six.
    pub fn new(
        ask: Request,
        turn: u32,
        grants: Vec<Grant>,
        from: Vec<NiId>,
        to: Vec<NiId>,
        crowded: Vec<NiId>,
    ) -> Trial
        requires from { Ascend from.items }
        requires to { Ascend to.items }
        requires crowded { Ascend crowded.items }
        ensures { result ≡ record {
          ask = ask;
          turn = turn;
          grants = grants.items;
          from = from.items;
          to = to.items;
          crowded = crowded.items;
        } }
    {
        Trial {
            ask,
            turn,
            grants,
            from,
            to,
            crowded,
        }
    }

    /// What the channel asks of a path.
    pub fn ask(&self) -> Request
        ensures { result ≡ self.now.ask }
    {
        self.ask
    }

    /// Its turn, counted from 1.
    pub fn turn(&self) -> u32
        ensures { result ≡ self.now.turn }
    {
        self.turn
    }

    /// The grants that were made before it.
    pub fn grants(&self) -> &[Grant]
        ensures { result.now ≡ self.now.grants }
    {
        &self.grants
    }

    /// The interfaces from which it may lead, ascending.
    pub fn from(&self) -> &[NiId]
        ensures from { result.now ≡ self.now.from }
        ensures trial { IsTrial self.now }
    {
        &self.from
    }

    /// The interfaces to which it may lead, ascending.
    pub fn to(&self) -> &[NiId]
        ensures { result.now ≡ self.now.to }
    {
        &self.to
    }

    /// The interfaces, ascending, that are said to have room for one of its cores and not for both: no path leads from
    /// one of these to itself.
    pub fn crowded(&self) -> &[NiId]
        ensures { result.now ≡ self.now.crowded }
    {
        &self.crowded
    }
}
