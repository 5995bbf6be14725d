//! The bytes of one allocation behind a raw pointer. The address, the owner of
//! the bytes and the right to free them are three values, so that what holds
//! them is proved as safe code is.
ghost use Rattle.std.specs.Prelude.{◌≡◌, ℕ, ◌+◌, ◌<◌, ◌≤◌, ◌^◌, List, [], ◌∷◌, ◌++◌, length, take, drop, IfOk};
ghost use Rattle.std.specs.Borrow.{sem};
ghost use base.Fml.{ftrue};
ghost use denote.RawPtr.{Ptr};
ghost use Rattle.us_raw.specs.Ownership.{bytes_own, bytes_lent, right_owns};

use std::alloc::{AllocError, Allocator};
use std::marker::{Model, PhantomData};
use std::slice;

/// The address of the first byte. It owns nothing.
#[derive(Clone, Copy)]
pub struct Start {
    ptr: *mut u8,
}

/// The owner of the bytes at an address: of those that are written, and of the
/// room behind them.
pub struct Bytes {
    mark: PhantomData<*const u8>,
    ghost at: { Ptr },
    ghost written: { List ℕ },
    ghost room: { ℕ },
}

impl Model for Bytes {
    ghost also_owns = { λ b. bytes_own b.at b.written b.room };

    ghost also_shares = { λ b _ κ. bytes_lent b.at b.written b.room κ };
}

/// The right to give `size` bytes at an address back to their allocator.
pub struct Right<A: Allocator> {
    mark: PhantomData<*const A>,
    ghost at: { Ptr },
    ghost size: { ℕ },
    ghost alloc: { A },
}

impl<A: Allocator> Model for Right<A> {
    ghost also_owns = { λ r. right_owns (A.dealloc_token r.alloc) r.at r.size };

    ghost also_shares = { λ _ _ _. ftrue };
}

/// Asks for `size` bytes, none of them written.
pub(crate) fn allocate<A: Allocator>(
    alloc: &A,
    size: usize,
) -> Result<(Start, Bytes, Right<A>), AllocError>
    requires { size < 2 ^ 63 }
    ensures { IfOk result (λ r. (r.1.at ≡ r.0.ptr) × (r.1.written ≡ []) × (r.1.room ≡ size) × (r.2.at ≡ r.0.ptr)
        × (r.2.size ≡ size) × (r.2.alloc ≡ alloc.now)) }
{
    match alloc.allocate(size, 1) {
        Ok(ptr) => {
            let start = Start { ptr };
            Ok((
                start,
                Bytes { mark: PhantomData },
                Right { mark: PhantomData },
            ))
        }
        Err(error) => Err(error),
    }
}

/// Gives the bytes back, whatever they hold.
pub(crate) fn free<A: Allocator>(
    alloc: &A,
    start: Start,
    size: usize,
    bytes: Bytes,
    right: Right<A>,
)
    requires { (bytes.at ≡ start.ptr) × (length bytes.written ≡ size) × (bytes.room ≡ 0) × (right.at ≡ start.ptr)
        × (right.size ≡ size) × (right.alloc ≡ alloc.now) }
{
    let Bytes { mark: _ } = bytes;
    let Right { mark: _ } = right;
    unsafe {
        alloc.deallocate(start.ptr, size, 1);
    }
}

impl Bytes {
    ghost use Rattle.us_raw.specs.Lends.{lends_run};

    /// Writes the byte behind those that are written.
    pub(crate) fn push(&mut self, start: Start, index: usize, byte: u8)
        requires { (start.ptr ≡ self.old.at) × (index ≡ length self.old.written) × (0 < self.old.room) }
        ensures { (self.new.at ≡ self.old.at) × (self.new.written ≡ self.old.written ++ byte ∷ []) × (self.new.room + 1 ≡ self.old.room) }
    {
        unsafe { start.ptr.add(index).write(byte) }
    }

    /// All the bytes that are written.
    pub(crate) fn whole(&self, start: Start, len: usize) -> &[u8]
        requires { (start.ptr ≡ self.now.at) × (len ≡ length self.now.written) }
        ensures { result.now ≡ self.now.written }
    {
        unsafe { slice::from_raw_parts(start.ptr, len) }
    }

    /// The written bytes in three: those before the index `from`, the `count`
    /// that begin there, to be written, and those behind them.
    pub(crate) fn cut(
        &mut self,
        start: Start,
        len: usize,
        from: usize,
        count: usize,
    ) -> (&[u8], &mut [u8], &[u8])
        requires { (start.ptr ≡ self.old.at) × (len ≡ length self.old.written) × (from + count ≤ len) }
        ensures* writes_back { sem 𝓛 (lends_run self.entry from count result.1) }
        ensures parts { (result.0.now ≡ take from self.old.written)
            × (result.1.now ≡ take count (drop from self.old.written)) × (result.2.now ≡ drop (from + count) self.old.written) }
    {
        unsafe {
            let middle = start.ptr.add(from);
            let behind = start.ptr.add(from + count);
            (
                slice::from_raw_parts(start.ptr, from),
                slice::from_raw_parts_mut(middle, count),
                slice::from_raw_parts(behind, len - (from + count)),
            )
        }
    }
}
