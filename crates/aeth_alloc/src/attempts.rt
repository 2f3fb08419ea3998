// A try of a channel for which a unit is refused.
ghost use Rattle.std.specs.Prelude.{◌≡◌, ◌<◌, ◌≤◌, ◌++◌, [], ◌∷◌, IfOk, IfSome, Some, length};
ghost use Rattle.std.specs.Prelude.{option_map, option_to_list, slice_get};
ghost use Rattle.aeth_app.specs.App.{IsConnection};
ghost use Rattle.aeth_base.specs.declared.ids.Side.TheVariants.{Back, Fwd};
ghost use Rattle.aeth_alloc.specs.Channels.{tried};
ghost use Rattle.aeth_alloc.specs.Holds.{IsReservedOf};
ghost use Rattle.aeth_alloc.specs.Trials.{trial_for, trial_of};
ghost use Rattle.aeth_alloc.specs.Tries.{trial_over};

use crate::channels::{Design, Reserved, request_of};
use crate::outcome::Refused;
use aeth_app::Connection;
use aeth_base::{NiId, NoMemory, Side};
use aeth_group::Grant;
use aeth_paths::{Request, Trial};
use std::alloc::Global;
use std::marker::Model;

/// A try beside the grants of all turns: how many of them were made before its unit's turn (`before`),
/// and the unit's own, where its `back` channel was tried.
#[derive(Drop)]
pub(crate) struct Try {
    pub ask: Request,
    pub turn: u32,
    before: usize,
    fwd: Option<Grant>,
    from: Vec<NiId>,
    to: Vec<NiId>,
    crowded: Vec<NiId>,
}

impl Model for Try {
    ghost use Rattle.aeth_alloc.specs.Tries.{IsTry, TryData};

    ghost Value = { TryData };

    ghost view = { λ one. record {
      ask = one.ask;
      turn = one.turn;
      before = one.before;
      fwd = one.fwd;
      from = one.from.items;
      to = one.to.items;
      crowded = one.crowded.items;
    } };

    ghost invariant = { λ one. IsTry (record {
      ask = one.ask;
      turn = one.turn;
      before = one.before;
      fwd = one.fwd;
      from = one.from.items;
      to = one.to.items;
      crowded = one.crowded.items;
    }) };
}

impl Try {
    // The trial of this try, over the grants of all turns.
    pub(crate) fn trial(&self, alloc: Global, grants: &[Grant]) -> Result<Trial, NoMemory>
        requires { self.now.before ≤ length grants.now }
        ensures { IfOk result (λ trial. trial ≡ trial_over grants.now self.now) }
    {
        let grants = grants_with(alloc, &grants[..self.before], self.fwd)?;
        let from = copied(alloc, &self.from)?;
        let to = copied(alloc, &self.to)?;
        let crowded = copied(alloc, &self.crowded)?;
        Ok(Trial::new(self.ask, self.turn, grants, from, to, crowded))
    }
}

// These grants, and one more behind them, if any.
fn grants_with(alloc: Global, grants: &[Grant], more: Option<Grant>) -> Result<Vec<Grant>, NoMemory>
    ensures { IfOk result (λ list. list.items ≡ grants.now ++ option_to_list more) }
{
    let mut list = grants.to_vec(alloc)?;
    if let Some(grant) = more {
        list.push(grant)?;
    }
    Ok(list)
}

// These interfaces once more.
fn copied(alloc: Global, nis: &[NiId]) -> Result<Vec<NiId>, NoMemory>
    ensures { IfOk result (λ list. list.items ≡ nis.now) }
{
    let list = nis.to_vec(alloc)?;
    Ok(list)
}

impl Reserved {
    // A channel's try beside what is reserved.
    fn try_of<F>(
        &self,
        alloc: Global,
        design: &Design<F>,
        connection: &Connection,
        refused: Refused,
    ) -> Result<Try, NoMemory>
        requires is { slice_get design.now.app.connections refused.unit.conn.0
            ≡ Some connection.now }
        requires joined { IsConnection (length design.now.app.cores) connection.now }
        requires reserved { IsReservedOf design.now self.now }
        ensures trial { IfOk result (λ one. trial_over self.now.book.grants one
            ≡ trial_for design.now refused connection.now self.now) }
        ensures within { IfOk result (λ one. one.before ≤ length self.now.book.grants) }
    {
        let from = connection.sender(refused.side);
        let to = connection.receiver(refused.side);
        Ok(Try {
            ask: request_of(design.app, connection, refused.unit, refused.side),
            turn: refused.turn,
            before: self.book.list().len(),
            fwd: None,
            from: self.seats.candidates(alloc, from)?,
            to: self.seats.candidates(alloc, to)?,
            crowded: self.seats.crowded(alloc, from, to)?,
        })
    }

    // The try of a unit's `back` channel beside its `fwd` channel, which is granted what is found for
    // it: its cores sit then where the path begins and ends.
    fn back_try<F: Fn(u32, u32) -> u32>(
        &self,
        alloc: Global,
        design: &Design<F>,
        connection: &Connection,
        refused: Refused,
    ) -> Result<Option<Try>, NoMemory>
        requires is { slice_get design.now.app.connections refused.unit.conn.0
            ≡ Some connection.now }
        requires joined { IsConnection (length design.now.app.cores) connection.now }
        requires side { refused.side ≡ Back }
        requires reserved { IsReservedOf design.now self.now }
        ensures trial { IfOk result (λ one. option_map (trial_over self.now.book.grants) one
            ≡ option_map (trial_for design.now refused connection.now)
            (tried design.now self.now refused.unit Fwd)) }
        ensures within { IfOk result (λ one. IfSome one (λ one.
            one.before ≤ length self.now.book.grants)) }
    {
        let _cores = self.seats.cores();
        let unit = refused.unit;
        let Some(found) = self.first_for(alloc, design, connection, unit, Side::Fwd)? else {
            return Ok(None);
        };
        Ok(Some(Try {
            ask: request_of(design.app, connection, unit, Side::Back),
            turn: refused.turn,
            before: self.book.list().len(),
            fwd: Some(Grant {
                unit,
                side: Side::Fwd,
                path: found.path,
                slots: found.slots,
            }),
            from: alone(alloc, found.to)?,
            to: alone(alloc, found.from)?,
            crowded: Vec::new(alloc),
        }))
    }

    // The try of a refusal, from what was reserved before its turn.
    pub(crate) fn refused_try<F: Fn(u32, u32) -> u32>(
        &self,
        alloc: Global,
        design: &Design<F>,
        refused: Refused,
    ) -> Result<Option<Try>, NoMemory>
        requires unit { refused.unit.conn.0 < length design.now.app.connections }
        requires reserved { IsReservedOf design.now self.now }
        ensures trial { IfOk result (λ one. option_map (trial_over self.now.book.grants) one
            ≡ trial_of design.now self.now refused) }
        ensures within { IfOk result (λ one. IfSome one (λ one.
            one.before ≤ length self.now.book.grants)) }
    {
        let connection = design.app.connection(refused.unit.conn);
        match refused.side {
            Side::Fwd => {
                let one = self.try_of(alloc, design, &connection, refused)?;
                Ok(Some(one))
            }
            Side::Back => self.back_try(alloc, design, &connection, refused),
        }
    }
}

// An interface alone.
fn alone(alloc: Global, ni: NiId) -> Result<Vec<NiId>, NoMemory>
    ensures { IfOk result (λ nis. nis.items ≡ ni ∷ []) }
{
    let mut nis = Vec::new(alloc);
    nis.push(ni)?;
    Ok(nis)
}
