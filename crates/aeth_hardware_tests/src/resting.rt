// What no clause says: that components which rest aren't called.

ghost use Rattle.std.specs.Prelude.{◌≡◌, ◌≢◌, ◌<◌, IsTrue, All, length, map};
ghost use Rattle.std.proofs.Common.{refl};
ghost use Rattle.aeth_clocked.specs.Driven.{AreDisjoint};
ghost use Rattle.aeth_clocked.specs.Wires.{AreLinks};
ghost use Rattle.aeth_router.specs.Agreement.{stage_absorb-agrees};
ghost use Rattle.aeth_router.specs.Stage.{new_stage, stage_outputs, stage_inputs, stage_emit};
ghost use Rattle.aeth_router.specs.Stage.{stage_after, stage_absorb};

use aeth_base::{LinkId, NoMemory, Steps};
use aeth_clocked::{Clocked, Flit, Wires, drive_some, latch_some};
use aeth_router::Stage;
use std::alloc::Global;
use std::marker::{Brand, Model};
use std::sync::ledger::{Blank, Ledger};
use std::test::*;

// A stage that counts how often it drives and latches. The counts aren't part of what it is.
#[derive(Drop)]
struct Counting {
    stage: Stage,
    drives: u32,
    latches: u32,
}

impl Model for Counting {
    ghost use Rattle.aeth_router.specs.Stage.{StageState};

    ghost Value = { StageState };

    ghost view = { λ counting. counting.stage };
}

impl Clocked for Counting {
    ghost outputs = { stage_outputs };

    ghost inputs = { stage_inputs };

    ghost emit = { stage_emit };

    ghost after = { stage_after };

    ghost absorb = { stage_absorb };

    fn drive(&mut self, cycle: u64, wires: &mut Wires) {
        self.stage.drive(cycle, wires);
        self.drives = self.drives.saturating_add(1);
    }

    fn latch(&mut self, wires: &Wires) {
        self.stage.latch(wires);
        self.latches = self.latches.saturating_add(1);
    }

    fn rests_drive(&self, cycle: u64, wires: &Wires) -> bool {
        self.stage.rests_drive(cycle, wires)
    }

    fn rests_latch(&self, wires: &Wires) -> bool {
        self.stage.rests_latch(wires)
    }

    ghost outputs_after = { λ stage cycle wire. refl };

    ghost inputs_after = { λ stage cycle wire. refl };

    ghost outputs_absorb = { λ stage wires wire. refl };

    ghost inputs_absorb = { λ stage wires wire. refl };

    ghost absorb_agrees = { stage_absorb-agrees };
}

const FLIT: Option<Flit> = Some(Flit {
    header: 1,
    first: 10,
    second: 11,
});

// A stage that has neither driven nor latched.
fn counting_stage(input: u32, output: u32) -> Counting
    requires { input ≢ output }
    ensures { result ≡ new_stage (record { 0 = input }) (record { 0 = output }) }
{
    Counting {
        stage: Stage::new(LinkId(input), LinkId(output)),
        drives: 0,
        latches: 0,
    }
}

// The first of two stages latches, where the second rests. Gives whether it does.
fn latch_first<L: Ledger>(pair: &mut [Counting], wires: &Wires, steps: &mut Steps<L>) -> bool
    requires two { length pair.old ≡ 2 }
    requires links { All (λ stage. AreLinks (stage_inputs stage) (length wires.now)) pair.old }
    ensures { IsTrue result → pair.new ≡ map (λ stage. stage_absorb stage wires.now) pair.old }
{
    if !pair[1].rests_latch(wires) {
        return false;
    }
    latch_some(pair, &[0], wires, steps);
    true
}

// The first of two stages drives, where the second rests. Gives whether it does.
fn drive_first<L: Ledger>(pair: &mut [Counting], wires: &mut Wires, steps: &mut Steps<L>) -> bool
    requires two { length pair.old ≡ 2 }
    requires links { All (λ stage. AreLinks (stage_outputs stage) (length wires.old)) pair.old }
    requires disjoint { AreDisjoint stage_outputs pair.old }
{
    if !pair[1].rests_drive(0, wires) {
        return false;
    }
    drive_some(pair, &[0], 0, wires, steps);
    true
}

// How often each of two stages drives and latches where a flit is on the way to the first, which
// latches it and drives it. The second has nothing to do; none is given where it doesn't rest.
fn calls<L: Ledger>(wires: &mut Wires, steps: &mut Steps<L>) -> Option<[(u32, u32); 2]>
    requires { length wires.old ≡ 4 }
{
    let mut pair = [counting_stage(0, 1), counting_stage(2, 3)];
    wires.put(LinkId(0), FLIT);
    if !latch_first(&mut pair, wires, steps) || !drive_first(&mut pair, wires, steps) {
        return None;
    }
    Some([calls_of(&pair[0]), calls_of(&pair[1])])
}

fn calls_of(stage: &Counting) -> (u32, u32) {
    (stage.drives, stage.latches)
}

// The calls over four wires, with a counter.
fn calls_with<L: Ledger>(alloc: Global, blank: Blank) -> Result<Option<[(u32, u32); 2]>, NoMemory>
    requires name { blank.name ≡ L.name }
    requires parts { blank.parts ≡ L.parts }
    requires one { L.parts ≡ 1 }
{
    let mut wires = Wires::new(alloc, 4)?;
    let mut steps = Steps::<L>::open(blank);
    Ok(calls(&mut wires, &mut steps))
}

// A body that steps a component without the counter is refused by no clause.
#[test]
fn idle_parts_rest(rt: HostRuntime) -> Result<(), Fail> {
    let calls = calls_with::<Brand>(rt.alloc(), Blank::new(1))?;
    assert_eq!(rt; calls, Some([(1, 1), (0, 0)]));
    Ok(())
}
