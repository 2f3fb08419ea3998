// How many words the receive queues of a chip have room for.

ghost use Rattle.std.specs.Prelude.{◌≡◌, ◌<◌, ◌*◌, All, IfOk, length};
ghost use Rattle.aeth_schedule.specs.Rooms.{landing_number, raised, raised_all, rooms_of};

use aeth_accepted::RunInputs;
use aeth_base::NoMemory;
use aeth_ni::QUEUES_OF_INTERFACE;
use aeth_tables::{Buffer, buffers};
use std::alloc::Global;

// For each queue of each interface the greatest buffer of a channel that lands there in some use case.
pub(crate) fn rooms_of(alloc: Global, inputs: &RunInputs) -> Result<Vec<u32>, NoMemory>
    ensures { IfOk result (λ rooms. rooms.items ≡ rooms_of inputs.now) }
{
    inputs.are_accepted();
    let chip = inputs.chip();
    let buffers = buffers(alloc, chip, inputs.app(), inputs.groups(), inputs.plan())?;
    let mut rooms = vec![in alloc; 0; QUEUES_OF_INTERFACE * chip.nis() as usize]?;
    raise_all(&mut rooms, &buffers);
    Ok(rooms)
}

// The queues have room for these channels too.
fn raise_all(rooms: &mut Vec<u32>, buffers: &[Buffer])
    requires { All (λ one. landing_number one < length rooms.old.items) buffers.now }
    ensures { rooms.new.items ≡ raised_all rooms.old.items buffers.now }
{
    for one in buffers {
        raise(rooms, one);
    }
}

// The queue at which a channel lands has room for it too.
fn raise(rooms: &mut Vec<u32>, one: &Buffer)
    requires { landing_number one.now < length rooms.old.items }
    ensures { rooms.new.items ≡ raised rooms.old.items one.now }
{
    let number = QUEUES_OF_INTERFACE * one.ni.0 as usize + one.queue as usize;
    rooms[number] = rooms[number].max(one.words);
}
