// What is counted behind each cycle.

ghost use Rattle.std.specs.Prelude.{◌≡◌, IfOk, replicate};

use aeth_base::NoMemory;
use std::alloc::Global;

// For each word the cycle in which it landed, or 0, and for each link the flits that it carried.
#[derive(Drop)]
pub(crate) struct Counts {
    pub landings: Vec<u32>,
    pub flits: Vec<u32>,
}

impl Counts {
    // Of so many words and links, none of which has landed or carried any.
    pub(crate) fn new(alloc: Global, words: usize, links: usize) -> Result<Counts, NoMemory>
        ensures landings { IfOk result (λ counts. counts.landings.items ≡ replicate words 0) }
        ensures flits { IfOk result (λ counts. counts.flits.items ≡ replicate links 0) }
    {
        Ok(Counts {
            landings: vec![in alloc; 0; words]?,
            flits: vec![in alloc; 0; links]?,
        })
    }
}
