// A component of any kind.

ghost use Rattle.std.specs.Prelude.{◌≡◌, ℕ, Some, length};
ghost use Rattle.aeth_clocked.specs.Wires.{AreLinks};
ghost use Rattle.aeth_clocked.specs.declared.flit.Flit.{Flit};
ghost use Rattle.aeth_router.specs.Forwarding.{sent_by};
ghost use Rattle.aeth_router.specs.Onward.{Adds};
ghost use Rattle.aeth_router.specs.Part.{outputs_of, inputs_of, emit_of, after_of, absorb_of};
ghost use Rattle.aeth_router.specs.PartAgreement.{outputs_of-after, inputs_of-after};
ghost use Rattle.aeth_router.specs.PartAgreement.{outputs_of-absorb, inputs_of-absorb};
ghost use Rattle.aeth_router.specs.PartAgreement.{absorb_of-agrees};
ghost use Rattle.aeth_router.specs.Passing.{forwarded, has_table, passed};

use crate::forwarding::Forwarding;
use crate::onward::Onward;
use crate::router::Router;
use crate::stage::Stage;
use crate::table_router::TableRouter;
use aeth_base::LinkId;
use aeth_clocked::{Clocked, Flit, Wires};
use aeth_ni::Ni;

/// A component of a network, of any kind.
#[derive(Drop)]
pub enum Part {
    /// A network interface.
    Interface(Ni),
    /// A router that reads headers.
    Router(Router),
    /// A router that looks a table up.
    TableRouter(TableRouter),
    /// A stage of a link with a delay.
    Stage(Stage),
}

impl Part {
    /// Passes on in a cycle a flit that was on a wire in the one before: it goes to each output on which the
    /// component sends it. An interface passes none on.
    ///
    /// What a router or a stage drives, where it has latched wires, is what it passes on of their flits.
    /// So whoever passes on each flit of its wires need not have it latch and drive: what it holds makes no
    /// difference here, and stays.
    pub fn pass(&self, cycle: u32, wire: LinkId, flit: Flit, onward: &mut Onward)
        requires { AreLinks (outputs_of self.now) (length onward.old) }
        ensures { Adds (λ out. passed self.now cycle out wire.0 (Some flit)) onward.old onward.new }
    {
        match self {
            Part::Interface(_) => {}
            Part::Router(router) => router.pass(flit, onward),
            Part::TableRouter(router) => router.pass(cycle, wire, flit, onward),
            Part::Stage(stage) => stage.pass(flit, onward),
        }
    }

    /// Whether the component is a router that looks a table up.
    #[inline(always)]
    pub fn has_table(&self) -> bool
        ensures { result ≡ has_table self.now }
    {
        matches!(self, Part::TableRouter(_))
    }

    /// Passes on a flit that was on a wire in the cycle before, where it goes on alike in every cycle: by
    /// its header, or through a stage. A router with a table and an interface pass none on here.
    pub fn forward(&self, flit: Flit, onward: &mut Onward)
        requires { AreLinks (outputs_of self.now) (length onward.old) }
        ensures { Adds (λ out. forwarded self.now out (Some flit)) onward.old onward.new }
    {
        match self {
            Part::Router(router) => router.pass(flit, onward),
            Part::Stage(stage) => stage.pass(flit, onward),
            Part::Interface(_) | Part::TableRouter(_) => {}
        }
    }

    /// How the component sends flits on in every cycle alike, which never changes.
    pub fn forwarding(&self) -> Forwarding
        ensures { (out : ℕ) (flit : Flit)
            → sent_by result out flit ≡ forwarded self.now out (Some flit) }
    {
        match self {
            Part::Router(router) => router.forwarding(),
            Part::Stage(stage) => stage.forwarding(),
            Part::Interface(_) | Part::TableRouter(_) => Forwarding::Nowhere,
        }
    }
}

impl Clocked for Part {
    ghost outputs = { outputs_of };

    ghost inputs = { inputs_of };

    ghost emit = { emit_of };

    ghost after = { after_of };

    ghost absorb = { absorb_of };

    fn drive(&mut self, cycle: u64, wires: &mut Wires) {
        match self {
            Part::Interface(ni) => ni.drive(cycle, wires),
            Part::Router(router) => router.drive(cycle, wires),
            Part::TableRouter(router) => router.drive(cycle, wires),
            Part::Stage(stage) => stage.drive(cycle, wires),
        }
    }

    fn latch(&mut self, wires: &Wires) {
        match self {
            Part::Interface(ni) => ni.latch(wires),
            Part::Router(router) => router.latch(wires),
            Part::TableRouter(router) => router.latch(wires),
            Part::Stage(stage) => stage.latch(wires),
        }
    }

    fn rests_drive(&self, cycle: u64, wires: &Wires) -> bool {
        match self {
            Part::Interface(ni) => ni.rests_drive(cycle, wires),
            Part::Router(router) => router.rests_drive(cycle, wires),
            Part::TableRouter(router) => router.rests_drive(cycle, wires),
            Part::Stage(stage) => stage.rests_drive(cycle, wires),
        }
    }

    fn rests_latch(&self, wires: &Wires) -> bool {
        match self {
            Part::Interface(ni) => ni.rests_latch(wires),
            Part::Router(router) => router.rests_latch(wires),
            Part::TableRouter(router) => router.rests_latch(wires),
            Part::Stage(stage) => stage.rests_latch(wires),
        }
    }

    ghost outputs_after = { outputs_of-after };

    ghost inputs_after = { inputs_of-after };

    ghost outputs_absorb = { outputs_of-absorb };

    ghost inputs_absorb = { inputs_of-absorb };

    ghost absorb_agrees = { absorb_of-agrees };
}
