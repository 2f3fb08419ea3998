// A network interface: a slot table and 32 queues between two links.

ghost use Rattle.std.specs.Prelude.{◌≡◌, ◌<◌, ◌≤◌, ◌↔◌, length, slice_get, IfOk, IfSome, map};
ghost use Rattle.std.specs.Prelude.{◌≢◌, ℕ, IsTrue, None, Some};
ghost use Rattle.std.specs.List.{slice_index_or};
ghost use Rattle.std.specs.Bool.{IsFalse, OnTrue, OnFalse};
ghost use Rattle.std.proofs.Common.{refl};
ghost use Rattle.aeth_ni.specs.Limits.{queues_of_interface, waiting_words};
ghost use Rattle.aeth_ni.specs.Queue.{empty_queue, offered, word_taken, finished, stopped};
ghost use Rattle.aeth_ni.specs.Interface.{IsInterface, queue_at, changed, new_interface};
ghost use Rattle.aeth_ni.specs.Component.{queue_at_cycle, emitted_by, flit_sent_by, arrival_of};
ghost use Rattle.aeth_ni.specs.Component.{absorbed, landed_at, last_of};
ghost use Rattle.aeth_ni.specs.Component.{interface_outputs, interface_inputs, interface_emit};
ghost use Rattle.aeth_ni.specs.Component.{interface_after, interface_absorb};
ghost use Rattle.aeth_ni.specs.Agreement.{interface_absorb-agrees};
ghost use Rattle.aeth_ni.specs.Sending.{emitted};
ghost use Rattle.aeth_ni.specs.Writes.{addressee, IsWritable, written};

use crate::queue::{Queue, Route, WAITING_WORDS};
use crate::write::Write;
use aeth_base::{LinkId, NiId, NoMemory};
use aeth_clocked::{Clocked, Flit, Wires};
use aeth_header::unpack;
use std::alloc::Global;
use std::marker::Model;

/// The number of queues of a network interface.
pub const QUEUES_OF_INTERFACE: usize = 32;

/// A network interface, after Æthereal (2005).
///
/// In a slot whose entry names a queue it sends up to two words and up to 15 credits on its leaving
/// link. What comes on its entering link lands in the queue that the header names.
#[derive(Drop)]
pub struct Ni {
    number: NiId,
    leaving: LinkId,
    entering: LinkId,
    entries: Vec<Option<u8>>,
    queues: Vec<Queue>,
    last: Option<(u8, u8)>,
}

impl Model for Ni {
    ghost use Rattle.aeth_ni.specs.Interface.{InterfaceState, IsInterface};

    ghost Value = { InterfaceState };

    ghost view = { λ ni. record {
      number = ni.number;
      leaving = ni.leaving;
      entering = ni.entering;
      entries = ni.entries.items;
      queues = ni.queues.items;
      last = ni.last;
    } };

    ghost invariant = { λ ni. IsInterface ni.entries.items ni.queues.items };
}

impl Ni {
    /// An interface with this number of slots, all without an entry, and 32 queues without route,
    /// word or credit. `rooms` has the words that each receive queue has room for.
    ///
    /// It sends on the wire `leaving`, which is its outgoing link, and receives on the wire
    /// `entering`, which is the last wire of its incoming link. Later calls take no memory.
    pub fn new(
        alloc: Global,
        ni: NiId,
        leaving: LinkId,
        entering: LinkId,
        slots: u32,
        rooms: &[u32],
    ) -> Result<Ni, NoMemory>
        requires slots { 0 < slots }
        requires rooms { length rooms.now ≡ queues_of_interface }
        ensures { IfOk result (λ made. made ≡ new_interface ni leaving entering slots rooms.now) }
    {
        let entries = vec![in alloc; None; slots as usize]?;
        let queues = empty_queues(alloc, rooms)?;
        Ok(Ni {
            number: ni,
            leaving,
            entering,
            entries,
            queues,
            last: None,
        })
    }

    /// Puts a word behind those that wait in a source queue. False, and nothing changes, exactly
    /// where eight words wait there.
    pub fn offer(&mut self, queue: u8, word: u32) -> bool
        requires { queue < queues_of_interface }
        ensures full { IsFalse result
            ↔ (length (queue_at self.old.queues queue).waiting ≡ waiting_words) }
        ensures offered { OnTrue result (self.new ≡ changed queue (offered word) self.old) }
        ensures kept { OnFalse result (self.new ≡ self.old) }
        ensures few { length (queue_at self.old.queues queue).waiting ≤ waiting_words }
        ensures interface { IsInterface self.old.entries self.old.queues }
    {
        let queue = &mut self.queues[queue as usize];
        queue.offer(word)
    }

    /// Takes the oldest word out of a receive queue, for which one more credit is owed. `None`, and
    /// nothing changes, exactly where it holds none.
    pub fn take(&mut self, queue: u8) -> Option<u32>
        requires { queue < queues_of_interface }
        ensures word { result ≡ slice_get (queue_at self.old.queues queue).received 0 }
        ensures taken { self.new ≡ changed queue word_taken self.old }
        ensures interface { IsInterface self.old.entries self.old.queues }
    {
        let queue = &mut self.queues[queue as usize];
        queue.take()
    }

    /// Stops the injection of a queue until its next `SetRoute`.
    pub fn halt(&mut self, queue: u8)
        requires { queue < queues_of_interface }
        ensures { self.new ≡ changed queue stopped self.old }
    {
        let queue = &mut self.queues[queue as usize];
        queue.halt();
    }

    /// Empties a source queue and its receive queue, its counter and the credits that it owes.
    pub fn finish(&mut self, queue: u8)
        requires { queue < queues_of_interface }
        ensures { self.new ≡ changed queue finished self.old }
    {
        let queue = &mut self.queues[queue as usize];
        queue.finish();
    }

    /// Does one write to the tables.
    pub fn write(&mut self, write: &Write)
        requires addressed { addressee write.now ≡ self.old.number }
        requires within { IsWritable write.now self.old }
        ensures { self.new ≡ written write.now self.old }
    {
        match *write {
            Write::ClearSlot { slot, .. } => self.entries[slot as usize] = None,
            Write::ClearRoute { queue, .. } => {
                let queue = &mut self.queues[queue as usize];
                queue.clear_route();
            }
            Write::SetRoute {
                queue,
                route,
                remote,
                credits,
                ..
            } => {
                let queue = &mut self.queues[queue as usize];
                queue.set_route(
                    Route {
                        ports: route,
                        remote,
                    },
                    credits,
                );
            }
            Write::SetSlot { slot, queue, .. } => self.entries[slot as usize] = Some(queue),
        }
    }

    /// The queue and the word count of the flit that was latched last; `None` exactly where the
    /// last `latch` brought none, or there was no `latch`.
    #[inline(always)]
    pub fn last(&self) -> Option<(u8, u8)>
        ensures last { result ≡ self.now.last }
        ensures interface { IsInterface self.now.entries self.now.queues }
    {
        self.last
    }

    /// The first cycle from `from` on, and below `to`, in which the interface sends something as it
    /// stands; `to` where there is none.
    ///
    /// It looks at no more than the slots of a table, each once.
    pub fn next_sending(&self, from: u64, to: u64) -> u64
        requires { from ≤ to }
        ensures from { from ≤ result }
        ensures to { result ≤ to }
        ensures mute { (cycle : ℕ) → from ≤ cycle → cycle < result
            → emitted_by (queue_at_cycle self.now.entries cycle) self.now.queues ≡ None }
        ensures sends { result < to
            → emitted_by (queue_at_cycle self.now.entries result) self.now.queues ≢ None }
    {
        let span = (to - from).min(self.entries.len() as u64);
        for cycle in from..from + span {
            if !self.is_mute(cycle) {
                return cycle;
            }
        }
        to
    }

    /// Lands a flit that came on the entering link, as `latch` does, and gives its queue and its word count,
    /// which is what `last` tells then.
    #[inline(always)]
    pub fn land(&mut self, flit: Flit) -> Option<(u8, u8)>
        ensures landed { self.new ≡ absorbed (arrival_of (Some flit)) self.old }
        ensures last { result ≡ last_of (arrival_of (Some flit)) }
    {
        self.last = land(&mut self.queues, Some(flit));
        self.last
    }

    /// Whether the queue of a cycle's slot sends nothing, as the interface stands.
    #[inline(always)]
    pub fn is_mute(&self, cycle: u64) -> bool
        ensures { IsTrue result
            ↔ (emitted_by (queue_at_cycle self.now.entries cycle) self.now.queues ≡ None) }
    {
        let slot = cycle % self.entries.len() as u64;
        self.is_mute_in(slot as usize)
    }

    /// Whether the queue of a slot sends nothing, as the interface stands.
    #[inline(always)]
    pub fn is_mute_in(&self, slot: usize) -> bool
        requires { slot < length self.now.entries }
        ensures { IsTrue result
            ↔ (emitted_by (slice_index_or self.now.entries slot None) self.now.queues ≡ None) }
    {
        is_mute(&self.queues, self.entries[slot])
    }

    /// Whether a queue sends nothing in a slot of its own, as the interface stands. A number that none of
    /// the 32 queues has sends nothing.
    #[inline(always)]
    pub fn is_queue_mute(&self, queue: u8) -> bool
        ensures { IsTrue result ↔ (emitted (queue_at self.now.queues queue) ≡ None) }
    {
        match self.queues.get(queue as usize) {
            Some(queue) => queue.is_mute(),
            None => true,
        }
    }
}

impl Clocked for Ni {
    ghost outputs = { interface_outputs };

    ghost inputs = { interface_inputs };

    ghost emit = { interface_emit };

    ghost after = { interface_after };

    ghost absorb = { interface_absorb };

    fn drive(&mut self, cycle: u64, wires: &mut Wires) {
        let slot = cycle % self.entries.len() as u64;
        let entry = self.entries[slot as usize];
        let flit = emit_by(&mut self.queues, entry);
        wires.put(self.leaving, flit);
    }

    fn latch(&mut self, wires: &Wires) {
        let flit = wires.get(self.entering);
        self.last = land(&mut self.queues, flit);
    }

    fn rests_drive(&self, cycle: u64, wires: &Wires) -> bool {
        wires.is_empty(self.leaving) && self.is_mute(cycle)
    }

    fn rests_latch(&self, wires: &Wires) -> bool {
        wires.is_empty(self.entering) && self.last.is_none()
    }

    ghost outputs_after = { λ ni cycle link. refl };

    ghost inputs_after = { λ ni cycle link. refl };

    ghost outputs_absorb = { λ ni wires link. refl };

    ghost inputs_absorb = { λ ni wires link. refl };

    ghost absorb_agrees = { interface_absorb-agrees };
}

// A queue for each room, all empty.
fn empty_queues(alloc: Global, rooms: &[u32]) -> Result<Vec<Queue>, NoMemory>
    ensures { IfOk result (λ queues. queues.items ≡ map empty_queue rooms.now) }
{
    let mut queues = Vec::with_capacity(alloc, rooms.len())?;
    for room in rooms {
        queues.push(Queue::new(alloc, *room)?)?;
    }
    Ok(queues)
}

// Takes out what the queue of an entry sends.
fn emit_by(queues: &mut [Queue], entry: Option<u8>) -> Option<Flit>
    requires { IfSome entry (λ queue. queue < length queues.old) }
    ensures flit { result ≡ emitted_by entry queues.old }
    ensures queues { queues.new ≡ flit_sent_by entry queues.old }
{
    let queue = &mut queues[entry? as usize];
    queue.emit()
}

// Whether the queue of an entry sends nothing.
#[inline(always)]
fn is_mute(queues: &[Queue], entry: Option<u8>) -> bool
    requires { IfSome entry (λ queue. queue < length queues.now) }
    ensures { IsTrue result ↔ (emitted_by entry queues.now ≡ None) }
{
    match entry {
        Some(queue) => queues[queue as usize].is_mute(),
        None => true,
    }
}

// Lands what a link brings, and gives the queue and the word count of it.
#[inline(always)]
fn land(queues: &mut [Queue], flit: Option<Flit>) -> Option<(u8, u8)>
    requires { length queues.old ≡ queues_of_interface }
    ensures last { result ≡ last_of (arrival_of flit) }
    ensures queues { queues.new ≡ landed_at (arrival_of flit) queues.old }
{
    let flit = flit?;
    let header = unpack(flit.header).ok()?;
    let queue = &mut queues[header.queue as usize];
    queue.land(&header, &flit);
    Some((header.queue, header.count))
}
