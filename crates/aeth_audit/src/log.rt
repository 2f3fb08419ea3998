// Logs of links.
ghost use Rattle.std.specs.Prelude.{◌≡◌, IfOk, length};
ghost use Rattle.aeth_base.specs.Faults.{Reads};
ghost use Rattle.aeth_audit.specs.Fault.{rule_of};
ghost use Rattle.aeth_audit.specs.LinkLog.{AreLinkRowsOf, link_log_of};

use crate::fault::LogFault;
use crate::judging::{judge_count, judge_known, judge_order};
use crate::reading::read_rows;
use crate::row::LinkRow;
use aeth_chip::Chip;
use std::alloc::Global;
use std::marker::Model;

/// The most rows of a log of links.
pub const MAX_LINK_ROWS: u32 = 1_000_000;

/// A log of links: the flits that were seen on the links of a chip, in the order of their cycles,
/// and within a cycle in that of the links, no two of one link in one cycle. It is seen as the list
/// of its rows.
#[derive(Drop)]
pub struct LinkLog {
    rows: Vec<LinkRow>,
}

impl Model for LinkLog {
    ghost use Rattle.std.specs.Prelude.{List};
    ghost use Rattle.aeth_audit.specs.declared.row.LinkRow.{LinkRow};

    ghost Value = { List LinkRow };

    ghost view = { λ log. log.rows.items };
}

impl LinkLog {
    /// The rows, in file order. Row number `n` of a file, from 1, is at place `n - 1`.
    pub fn rows(&self) -> &[LinkRow]
        ensures { result.now ≡ self.now }
    {
        &self.rows
    }
}

/// The log of a file's bytes, for a chip; or the first rule that the file breaks; or memory ran
/// out. Its columns are `cycle,link,header,first,second`: cycles are 0 to 1,000,000, links are
/// those of the chip by their numbers, and the three words of a flit are 0 to 4,294,967,295. Rows
/// rise by cycle and link.
#[tactic(auto, unfolding(crate::specs::LinkLog::link_log_of))]
pub fn read_log(alloc: Global, bytes: &[u8], chip: &Chip) -> Result<LinkLog, LogFault>
    ensures reads { Reads rule_of (λ log. log) result
        (link_log_of (length chip.now.links) bytes.now) }
    ensures rows { IfOk result (AreLinkRowsOf (length chip.now.links)) }
{
    let rows = read_rows(alloc, bytes)?;
    judge_known(&rows, chip.links())?;
    judge_order(&rows)?;
    judge_count(rows.len())?;
    Ok(LinkLog { rows })
}
