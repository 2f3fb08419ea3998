// A stage of a link with a delay.

ghost use Rattle.std.specs.Prelude.{◌≡◌, ◌≢◌, ◌<◌, ◌==◌, if◌then◌else◌, None, Some, length};
ghost use Rattle.aeth_router.specs.declared.forwarding.Forwarding.TheVariants.{Straight};
ghost use Rattle.std.proofs.Common.{refl};
ghost use Rattle.aeth_router.specs.Agreement.{stage_absorb-agrees};
ghost use Rattle.aeth_router.specs.Onward.{Adds};
ghost use Rattle.aeth_router.specs.Stage.{new_stage, stage_outputs, stage_inputs, stage_emit};
ghost use Rattle.aeth_router.specs.Stage.{stage_after, stage_absorb};

use crate::forwarding::Forwarding;
use crate::onward::Onward;
use aeth_base::LinkId;
use aeth_clocked::{Clocked, Flit, Wires};
use std::marker::Model;

/// A stage of a link with a delay: a component between one wire of the link and the next.
///
/// A flit that it latches in a cycle it drives in the next, unchanged. A link whose delay is `d`
/// cycles has `d - 1` stages.
#[derive(Drop)]
pub struct Stage {
    input: LinkId,
    output: LinkId,
    held: Option<Flit>,
}

impl Model for Stage {
    ghost use Rattle.std.specs.Prelude.{◌≢◌};
    ghost use Rattle.aeth_router.specs.Stage.{StageState};

    ghost Value = { StageState };

    ghost view = { λ stage. record {
      input = stage.input;
      output = stage.output;
      held = stage.held;
    } };

    ghost invariant = { λ stage. stage.input.0 ≢ stage.output.0 };
}

impl Stage {
    /// The stage that receives on one wire and sends on another, and holds no flit.
    pub fn new(input: LinkId, output: LinkId) -> Stage
        requires { input.0 ≢ output.0 }
        ensures { result ≡ new_stage input output }
    {
        Stage {
            input,
            output,
            held: None,
        }
    }

    // Passes a flit on.
    pub(crate) fn pass(&self, flit: Flit, onward: &mut Onward)
        requires { self.now.output.0 < length onward.old }
        ensures { Adds (λ out. if self.now.output.0 == out then Some flit else None)
            onward.old onward.new }
    {
        onward.add(self.output, flit);
    }

    // How a stage sends flits on.
    pub(crate) fn forwarding(&self) -> Forwarding
        ensures { result ≡ Straight self.now.output }
    {
        Forwarding::Straight(self.output)
    }
}

impl Clocked for Stage {
    ghost outputs = { stage_outputs };

    ghost inputs = { stage_inputs };

    ghost emit = { stage_emit };

    ghost after = { stage_after };

    ghost absorb = { stage_absorb };

    fn drive(&mut self, _cycle: u64, wires: &mut Wires) {
        wires.put(self.output, self.held);
        self.held = None;
    }

    fn latch(&mut self, wires: &Wires) {
        self.held = wires.get(self.input);
    }

    fn rests_drive(&self, _cycle: u64, wires: &Wires) -> bool {
        self.held.is_none() && wires.is_empty(self.output)
    }

    fn rests_latch(&self, wires: &Wires) -> bool {
        self.held.is_none() && wires.is_empty(self.input)
    }

    ghost outputs_after = { λ stage cycle wire. refl };

    ghost inputs_after = { λ stage cycle wire. refl };

    ghost outputs_absorb = { λ stage wires wire. refl };

    ghost inputs_absorb = { λ stage wires wire. refl };

    ghost absorb_agrees = { stage_absorb-agrees };
}
