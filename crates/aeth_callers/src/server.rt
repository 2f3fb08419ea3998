// The buffer with which a channel keeps its promise.
ghost use Rattle.std.specs.Prelude.{◌≡◌, ◌≤◌, ℕ};
ghost use Rattle.std.specs.List.Sorted.{IsNonDecreasing};
ghost use Rattle.aeth_server.specs.ChannelShape.{IsShapeInRange, shape_of};
ghost use Rattle.aeth_server.specs.Landing.{IsDue, LandsBy, due_time};
ghost use Rattle.aeth_server.specs.PrivateServer.{PrivateServer};

use aeth_server::{ChannelShape, buffer, laws};

/// The words for which the receiver needs room, so that each word that is due lands by its due
/// time, whatever words are offered.
pub fn safe_buffer(shape: &ChannelShape) -> u32
    requires { IsShapeInRange shape.now }
    ensures { (server : PrivateServer) → server.shape ≡ shape_of shape.now
        → IsNonDecreasing server.offers → result ≤ server.buffer
        → (i t : ℕ) → IsDue server i t → LandsBy server i (due_time server i) }
{
    // A call of a slot set tells what holds of every one.
    let (_own, _back) = (shape.slots.size(), shape.back.size());
    laws::bound();
    buffer(shape)
}
