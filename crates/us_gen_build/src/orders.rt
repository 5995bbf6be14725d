//! The order in which the loop takes the entries.

ghost use Rattle.std.specs.Prelude.{◌≡◌, IfOk};
ghost use Rattle.us_code.specs.Plain.{tree_of};
ghost use Rattle.us_gen_build.specs.Orders as orders;

use std::alloc::{AllocError, Global};
use us_code::{Block, Buf, Bufs, order};

/// New buffers as keys.
fn key_buffers(alloc: Global, keys: &[u32]) -> Result<Bufs, AllocError>
    ensures { IfOk result (λ bs. bs ≡ orders.key_bufs keys.now) }
{
    match keys {
        [] => Ok(Bufs::new(alloc)),
        [key, rest @ ..] => {
            let mut bufs = Bufs::from_slice(alloc, &[Buf::New(*key)])?;
            bufs.append(key_buffers(alloc, rest)?)?;
            Ok(bufs)
        }
    }
}

/// Makes a buffer the places of the entries in ascending order of their keys. It fails only for want of memory.
pub fn order_block(alloc: Global, places: u32, keys: &[u32]) -> Result<Block, AllocError>
    ensures { IfOk result (λ b. tree_of b ≡ orders.order_block places keys.now) }
{
    Block::of(alloc, order(Buf::New(places), key_buffers(alloc, keys)?))
}
