// The end of a run: the text of its answer is written.
ghost use Rattle.aeth_answers.specs.Job.{err_text, out_text};
ghost use Rattle.aeth_answers.specs.Status.{done_status, status_number};
ghost use Rattle.aeth_answers.specs.Writing.{EndsWith};
ghost use Rattle.aeth_io.specs.Causes.{Rose};
ghost use Rattle.aeth_io.specs.Sink.{AppendsProperPrefix, appended};
ghost use Rattle.std.specs.Prelude.{◌≡◌, ◌≢◌, ◌≤◌, ◌⊎◌, OnOk, OnErr};

use crate::answer::Answer;
use crate::status::Status;
use aeth_io::{Failed, Sink, write_all};

/// Writes the text of an answer to the sink that it goes to, and gives the status with which the run
/// ends: that of the answer, or that of a write fault.
pub fn end_with<O: Sink, E: Sink>(answer: &Answer, out: &mut O, err: &mut E) -> Status
    ensures { EndsWith O.Sink E.Sink (record { out = out.old; err = err.old })
        (record { out = out.new; err = err.new }) answer.now (status_number result) }
{
    match write_answer(answer, out, err) {
        Ok(()) => answer.status,
        Err(Failed) => Status::WriteFault,
    }
}

/// Writes the text of an answer to the sink that it goes to.
fn write_answer<O: Sink, E: Sink>(answer: &Answer, out: &mut O, err: &mut E) -> Result<(), Failed>
    ensures out { OnOk result
        (O.written out.new ≡ appended (O.written out.old) (out_text answer.now)) }
    ensures err { OnOk result
        (E.written err.new ≡ appended (E.written err.old) (err_text answer.now)) }
    ensures out_kept { answer.now.status ≢ done_status → out.new ≡ out.old }
    ensures err_kept { answer.now.status ≡ done_status → err.new ≡ err.old }
    ensures fault { OnErr result ((Rose (O.faults out.old) (O.faults out.new)
        × AppendsProperPrefix (O.written out.old) (O.written out.new) (out_text answer.now)
        × (err.new ≡ err.old))
        ⊎ (Rose (E.faults err.old) (E.faults err.new)
        × AppendsProperPrefix (E.written err.old) (E.written err.new) (err_text answer.now)
        × (out.new ≡ out.old))) }
    ensures out_later { O.faults out.old ≤ O.faults out.new }
    ensures err_later { E.faults err.old ≤ E.faults err.new }
{
    if answer.status == Status::Done {
        write_all(out, &answer.text)
    } else {
        write_all(err, &answer.text)
    }
}
