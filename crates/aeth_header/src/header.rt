// The header word of a flit, after Æthereal (2005); its layout is this project's own.
#![tactic(auto, unfolding(crate::specs::Header::word_of, crate::specs::Header::fields_of))]

ghost use Rattle.std.specs.Prelude.{◌≡◌, ◌<◌, ◌+◌, ◌*◌, ◌%◌, ◌^◌, ◌↔◌, IfOk, IsErr};
ghost use Rattle.aeth_header.specs.Header.{IsPackable, word_of, fields_of, header_of};
ghost use Rattle.aeth_header.specs.Header.{port_of, next_word};

use crate::fault::HeaderFault;
use aeth_base::WORDS_PER_FLIT;

/// The bits of one output port in the route.
pub const PORT_BITS: u32 = 3;

/// The output ports of the longest route.
pub const ROUTE_PORTS: u32 = 7;

/// The bits of the route: its output ports, the first lowest.
pub const ROUTE_BITS: u32 = ROUTE_PORTS * PORT_BITS;

/// The bits of the remote queue's number.
pub const QUEUE_BITS: u32 = 5;

/// The bits of the credits.
pub const CREDITS_BITS: u32 = 4;

/// The bits of the payload count.
pub const COUNT_BITS: u32 = 2;

/// The lowest bit of the remote queue's number.
pub const QUEUE_SHIFT: u32 = ROUTE_BITS;

/// The lowest bit of the credits.
pub const CREDITS_SHIFT: u32 = QUEUE_SHIFT + QUEUE_BITS;

/// The lowest bit of the payload count.
pub const COUNT_SHIFT: u32 = CREDITS_SHIFT + CREDITS_BITS;

const _: () = prove!(COUNT_SHIFT + COUNT_BITS == u32::BITS);

/// What the header word of a flit says.
#[derive(Clone, Copy, PartialEq)]
pub struct Header {
    /// The output ports that are left, three bits each, the next one lowest: below 2^21.
    pub route: u32,
    /// The queue of the receiving network interface: below 32.
    pub queue: u8,
    /// The credits that return to that queue's counter: below 16.
    pub credits: u8,
    /// The number of words that follow: at most two.
    pub count: u8,
}

/// The word of a header, whose fields are in their ranges.
pub fn pack(header: &Header) -> u32
    requires { IsPackable header.now }
    ensures word { result ≡ word_of header.now }
    ensures unpacks { header_of result ≡ Ok header.now }
{
    let count = u32::from(header.count);
    let with_credits = append(count, CREDITS_BITS, u32::from(header.credits));
    let with_queue = append(with_credits, QUEUE_BITS, u32::from(header.queue));
    append(with_queue, ROUTE_BITS, header.route)
}

/// The header of a word; a fault exactly where the word's payload count is 3.
pub fn unpack(word: u32) -> Result<Header, HeaderFault>
    ensures header { result ≡ header_of word }
    ensures fault { IsErr result ↔ ((fields_of word).count ≡ 3) }
    ensures packable { IfOk result IsPackable }
    ensures packs { IfOk result (λ header. word_of header ≡ word) }
{
    let count = (word >> COUNT_SHIFT) as u8;
    if u32::from(count) > WORDS_PER_FLIT {
        return Err(HeaderFault);
    }
    Ok(Header {
        route: low_bits(word, ROUTE_BITS),
        queue: low_bits(word >> QUEUE_SHIFT, QUEUE_BITS) as u8,
        credits: low_bits(word >> CREDITS_SHIFT, CREDITS_BITS) as u8,
        count,
    })
}

/// What a router does to a header: the output port that it takes, and the word that it sends on,
/// whose route has moved on by one port.
#[inline(always)]
pub fn hop(word: u32) -> (u8, u32)
    ensures port { result.0 ≡ port_of word }
    ensures word { result.1 ≡ next_word word }
{
    let route = low_bits(word, ROUTE_BITS);
    let port = low_bits(word, PORT_BITS) as u8;
    let sent = append(word >> ROUTE_BITS, ROUTE_BITS, route >> PORT_BITS);
    (port, sent)
}

// The lowest bits of a word.
#[tactic(auto, using(crate::proofs::Shifts::and_ones))]
#[inline(always)]
fn low_bits(word: u32, bits: u32) -> u32
    requires { bits < 32 }
    ensures { result ≡ word % 2 ^ bits }
{
    word & ((1 << bits) - 1)
}

// The word moved up by some bits, with a field in these.
#[tactic(auto, using(crate::proofs::Shifts::or_above))]
#[inline(always)]
fn append(word: u32, bits: u32, field: u32) -> u32
    requires below_width { bits < 32 }
    requires room { word * 2 ^ bits < 2 ^ 32 }
    requires fits { field < 2 ^ bits }
    ensures { result ≡ word * 2 ^ bits + field }
{
    (word << bits) | field
}
