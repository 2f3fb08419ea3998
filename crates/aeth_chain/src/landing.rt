// The landings on the last channel of a chain.
ghost use Rattle.std.specs.Prelude.{◌≡◌, ◌≤◌, ◌<◌, ◌+◌, IfOk, length, map};
ghost use Rattle.std.specs.List.{range_with_len};
ghost use Rattle.aeth_server.specs.Landing.{landing_cycle};
ghost use Rattle.aeth_server.specs.PrivateServer.{landed};
ghost use Rattle.aeth_chain.specs.ChainRun.{chain_time, landing_on};
ghost use Rattle.aeth_chain.specs.Lanes.{IsLane, IsRunning, legs_in, run_in, sending_cycles};
ghost use Rattle.aeth_chain.specs.Lanes.{server_in};

use crate::lane::{Lane, word_cycles};
use crate::run::Running;
use aeth_base::NoMemory;
use aeth_report::Landing;
use std::alloc::Global;

// The landings on the last lane of a run.
pub(crate) fn landings_on(
    alloc: Global,
    running: &Running,
    lane: &Lane,
) -> Result<Vec<Landing>, NoMemory>
    requires running { IsRunning running.now }
    requires lane { IsLane lane.now }
    requires cycles { lane.now.cycles ≡ running.now.cycles }
    requires shorter { length lane.now.offers.now ≤ length running.now.first.now }
    ensures gives { IfOk result (λ rows. rows.items ≡ map (landing_on lane.now.cycles
        (legs_in running.now) running.now.first.now (run_in lane.now))
        (range_with_len 0 (landed (server_in lane.now) lane.now.cycles))) }
    ensures few { IfOk result (λ rows. length rows.items ≤ length running.now.first.now) }
{
    let words = word_cycles(alloc, lane)?;
    landings_of(alloc, running, lane, &words.sent)
}

// The same, where its words are sent in these cycles.
fn landings_of(
    alloc: Global,
    running: &Running,
    lane: &Lane,
    sent: &[u32],
) -> Result<Vec<Landing>, NoMemory>
    requires running { IsRunning running.now }
    requires lane { IsLane lane.now }
    requires cycles { lane.now.cycles ≡ running.now.cycles }
    requires shorter { length lane.now.offers.now ≤ length running.now.first.now }
    requires sent { sent.now ≡ sending_cycles (server_in lane.now) lane.now.cycles
        (length lane.now.offers.now) }
    ensures gives { IfOk result (λ rows. rows.items ≡ map (landing_on lane.now.cycles
        (legs_in running.now) running.now.first.now (run_in lane.now))
        (range_with_len 0 (landed (server_in lane.now) lane.now.cycles))) }
    ensures few { IfOk result (λ rows. length rows.items ≤ length running.now.first.now) }
{
    let mut rows = Vec::new(alloc);
    let mut finish = 0;
    for place in 0..sent.len() {
        let landed = sent[place] + lane.shape.links;
        if landed >= lane.cycles {
            return Ok(rows);
        }
        finish = finish_behind(running, finish, place);
        rows.push(landing(running, lane, place, landed, finish))?;
    }
    Ok(rows)
}

// The landing of a word on the last lane in a cycle, with the chain's time of it.
fn landing(running: &Running, lane: &Lane, place: usize, landed: u32, finish: u64) -> Landing
    requires running { IsRunning running.now }
    requires place { place < length lane.now.offers.now }
    requires shorter { length lane.now.offers.now ≤ length running.now.first.now }
    requires landed { landed ≡ landing_cycle (server_in lane.now) lane.now.cycles (place + 1) }
    requires finish { finish
        ≡ chain_time (legs_in running.now) running.now.first.now (place + 1) }
    ensures { result ≡ landing_on lane.now.cycles (legs_in running.now) running.now.first.now
        (run_in lane.now) place }
{
    Landing {
        offered: running.first[place].cycle,
        landed,
        due: finish.div_ceil(u64::from(running.bound.rate)),
        value: lane.offers[place].value,
    }
}

// The rate of a chain times the time by which one more word is due.
fn finish_behind(running: &Running, finish: u64, place: usize) -> u64
    requires running { IsRunning running.now }
    requires place { place < length running.now.first.now }
    requires finish { finish ≡ chain_time (legs_in running.now) running.now.first.now place }
    ensures { result ≡ chain_time (legs_in running.now) running.now.first.now (place + 1) }
{
    let bound = running.bound;
    let offered = u64::from(running.first[place].cycle);
    let start = u64::from(bound.rate) * (offered + bound.latency);
    start.max(finish) + u64::from(running.shapes[0].size())
}
