// How long the switches of a run take.

ghost use Rattle.std.specs.Prelude.{◌≡◌, ◌≤◌, ◌*◌, IfOk, replicate};
ghost use Rattle.aeth_app.specs.Limits.{max_uses};
ghost use Rattle.aeth_scheduling.specs.Tasks.{AreSpansFor};

use aeth_accepted::RunInputs;
use aeth_base::NoMemory;
use aeth_tables::spans;
use aeth_trace::Spans;
use std::alloc::Global;

// Spans of no cycles between so many use cases.
fn no_spans(alloc: Global, uses: u32) -> Result<Spans, NoMemory>
    requires { uses ≤ max_uses }
    ensures { IfOk result (λ spans. spans
        ≡ record { uses = uses; pairs = replicate (uses * uses) (0, 0) }) }
{
    let pairs = vec![in alloc; (0, 0); (uses * uses) as usize]?;
    Ok(Spans::new(uses, pairs))
}

// The spans of the switches of a run: those of all switches by its plan. Without a switch nothing is
// asked of them, and none is reckoned.
pub(crate) fn spans_for(alloc: Global, inputs: &RunInputs) -> Result<Spans, NoMemory>
    ensures { IfOk result (AreSpansFor inputs.now) }
{
    aeth_tables::laws::switches();
    inputs.are_accepted();
    if inputs.switches().rows().len() < 2 {
        return no_spans(alloc, inputs.groups().uses());
    }
    spans(
        alloc,
        inputs.chip(),
        inputs.app(),
        inputs.groups(),
        inputs.plan(),
    )
}
