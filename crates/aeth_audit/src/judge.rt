// Judging the rows of a log: the first that breaks a rule, and the least rule that it breaks.
ghost use Rattle.std.specs.Prelude.{◌≡◌, ◌<◌, ◌↔◌, IfNone, IfSome, IsTrue, List, Some, length};
ghost use Rattle.std.specs.Prelude.{None, if◌then◌else◌, not, slice_get};
ghost use Rattle.aeth_app.specs.App.{AppData};
ghost use Rattle.aeth_group.specs.declared.grant.Grant.{Grant};
ghost use Rattle.aeth_trace.specs.declared.switches.SwitchRow.{SwitchRow};
ghost use Rattle.aeth_audit.specs.Audit.{broken_by, first_fault, is_joined, is_of_channel, rule_at};
ghost use Rattle.aeth_audit.specs.Judged.{IsJudgeOf, design_for, reservation_of};
ghost use Rattle.aeth_audit.specs.Judging.{IsFound, IsJudge, IsOpenAt};
ghost use Rattle.aeth_audit.specs.Limits.{broken_off, foreign};
ghost use Rattle.aeth_audit.specs.declared.places.Place.{Place};

use crate::places::Place;
use crate::row::LinkRow;
use crate::rules::{is_addressed, is_joined};
use crate::sessions::has_open;
use crate::starts::IndexedRows;
use crate::table::Table;
use crate::verdict::Audit;
use aeth_base::Channel;
use aeth_chip::Chip;
use aeth_clocked::Flit;
use aeth_group::Grant;
use aeth_header::PORT_BITS;
use aeth_plan::Plan;
use aeth_reconf::Timeline;

// The rules of a row, in their order.
const UNRESERVED: u8 = 1;

const FOREIGN: u8 = 2;

const BROKEN_OFF: u8 = 3;

// The least rule that a row breaks at a place, by its two tests.
fn rule_by(is_of_channel: bool, is_joined: bool) -> Option<u8>
    ensures { result ≡ (if not is_of_channel then Some foreign
        else if not is_joined then Some broken_off else None) }
{
    if !is_of_channel {
        return Some(FOREIGN);
    }
    if !is_joined {
        return Some(BROKEN_OFF);
    }
    None
}

/// What rows are judged with.
#[derive(Clone, Copy)]
pub(crate) struct Judge<'a> {
    pub chip: &'a Chip,
    pub plan: &'a Plan,
    pub table: &'a Table,
    pub timeline: &'a Timeline,
    pub rows: &'a [LinkRow],
    pub starts: &'a [u32],
    pub cycles: u32,
}

impl<'a> Judge<'a> {
    // Whether a session of a place's channel may inject the flit that would enter the link there in
    // a cycle.
    fn is_open_at(&self, cycle: u32, place: &Place, grant: &Grant) -> bool
        requires { IsJudge self.now }
        ensures { IsTrue result ↔ IsOpenAt self.now cycle place.now grant.now }
    {
        if place.ahead > cycle {
            return false;
        }
        let channel = Channel {
            conn: grant.unit.conn,
            side: grant.side,
        };
        let injected = (cycle - place.ahead) as u64;
        has_open(self.timeline.sessions(channel), grant.unit.group, injected)
    }

    // The grant of a place.
    fn grant_of(&self, place: &Place) -> &Grant
        requires { place.now.grant < length self.now.plan.now.grants }
        ensures { slice_get self.now.plan.now.grants place.now.grant ≡ Some result.now }
    {
        &self.plan.grants()[place.grant]
    }

    // The place at which the row's link is reserved in its cycle.
    fn find(&self, row: &LinkRow) -> Option<Place>
        requires judge { IsJudge self.now }
        requires link { row.now.link.0 < length self.now.chip.now.links }
        ensures some { IfSome result (IsFound self.now row.now.link.0 row.now.cycle) }
        ensures none { IfNone result ((place : Place)
            → IsFound self.now row.now.link.0 row.now.cycle place → ⊥) }
    {
        let at = self.table.places.at(row.link, row.cycle);
        for place in at {
            if self.is_open_at(row.cycle, place, self.grant_of(place)) {
                return Some(*place);
            }
        }
        None
    }

    // Whether a flit is one of the channel of a place's grant, as it is there.
    fn is_of_channel(&self, flit: &Flit, place: &Place, grant: &Grant) -> bool
        requires judge { IsJudge self.now }
        requires is_grant { slice_get self.now.plan.now.grants place.now.grant ≡ Some grant.now }
        requires place { place.now.place < length grant.now.path }
        ensures { (app : AppData) (switches : List SwitchRow) → IsJudgeOf app switches self.now
            → result ≡ is_of_channel (design_for app self.now)
            (reservation_of grant.now place.now.place) flit.now }
    {
        let address = self.table.addresses[place.grant];
        is_addressed(
            address.route >> (PORT_BITS * place.place),
            address.queue,
            flit,
        )
    }

    // Whether the row has one before it and one after it on the path of a place's grant.
    fn is_joined(&self, row: &LinkRow, place: &Place, grant: &Grant) -> bool
        requires judge { IsJudge self.now }
        requires link { row.now.link.0 < length self.now.chip.now.links }
        requires is_grant { slice_get self.now.plan.now.grants place.now.grant ≡ Some grant.now }
        requires place { place.now.place < length grant.now.path }
        ensures { (app : AppData) (switches : List SwitchRow) → IsJudgeOf app switches self.now
            → result ≡ is_joined (design_for app self.now) self.now.cycles self.now.rows.now
            (reservation_of grant.now place.now.place) row.now }
    {
        let log = IndexedRows {
            rows: self.rows,
            starts: self.starts,
        };
        is_joined(self.chip, &log, self.cycles, &grant.path, place.place, row)
    }

    // The least rule that the row breaks at a place, if it breaks one.
    fn rule_at(&self, row: &LinkRow, place: &Place) -> Option<u8>
        requires judge { IsJudge self.now }
        requires link { row.now.link.0 < length self.now.chip.now.links }
        requires found { IsFound self.now row.now.link.0 row.now.cycle place.now }
        ensures { (grant : Grant) → slice_get self.now.plan.now.grants place.now.grant ≡ Some grant
            → (app : AppData) (switches : List SwitchRow) → IsJudgeOf app switches self.now
            → result ≡ rule_at (design_for app self.now) self.now.cycles self.now.rows.now row.now
            (Some (reservation_of grant place.now.place)) }
    {
        let grant = self.grant_of(place);
        rule_by(
            self.is_of_channel(&row.flit, place, grant),
            self.is_joined(row, place, grant),
        )
    }

    // The least rule that the row breaks, if it breaks one.
    fn rule_of(&self, row: &LinkRow) -> Option<u8>
        requires judge { IsJudge self.now }
        requires link { row.now.link.0 < length self.now.chip.now.links }
        ensures { (app : AppData) (switches : List SwitchRow) → IsJudgeOf app switches self.now
            → result ≡ broken_by (design_for app self.now) self.now.timeline.now self.now.cycles
            self.now.rows.now row.now }
    {
        match self.find(row) {
            None => Some(UNRESERVED),
            Some(place) => self.rule_at(row, &place),
        }
    }

    /// The first row that breaks a rule, and the least rule that it breaks.
    pub(crate) fn first_fault(&self) -> Audit
        requires { IsJudge self.now }
        ensures { (app : AppData) (switches : List SwitchRow) → IsJudgeOf app switches self.now
            → result ≡ first_fault (design_for app self.now) self.now.timeline.now self.now.cycles
            self.now.rows.now 1 self.now.rows.now }
    {
        let mut number = 1;
        for row in self.rows {
            if let Some(rule) = self.rule_of(row) {
                return Audit::Fault { rule, row: number };
            }
            number += 1;
        }
        Audit::Clean
    }
}
