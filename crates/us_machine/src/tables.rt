//! What a block only reads: dims, and where the buffers stand in the region.
ghost use Rattle.std.specs.Prelude.{◌≡◌, ◌<◌, ◌^◌};
ghost use Rattle.us_code.specs.Run.{size_of};
ghost use Rattle.us_machine.specs.Tables.{env_of, seg_of, IsSized};

use crate::budget::Budget;
use crate::names::Names;
use us_code::{Buf, Dim};
use us_matrix::Buffers;
use us_raw::Segment;

/// The values of the dims by name, the right factors of the products, and for each new buffer which list of the region
/// it is. List 0 of a region has no cells, then come the sources, then the new buffers.
#[derive(Drop)]
pub struct Tables {
    pub dims: Names,
    pub factors: Names,
    pub segs: Names,
    /// The lists of the region.
    pub plan: Vec<Segment>,
    pub budget: Budget,
}

impl Tables {
    /// The value of a dim.
    #[inline(always)]
    pub fn size(&self, dim: Dim, source: &Buffers) -> u64
        requires { IsSized self.now source.now dim }
        ensures value { result ≡ size_of (env_of self.now source.now) dim }
        ensures small { result < 2 ^ 63 }
    {
        match dim {
            Dim::Number(n) => n,
            Dim::Name(d) => self.dims.get(d),
            Dim::Len(k) => source.list(k as usize).len() as u64,
        }
    }

    /// Which list of the region a buffer is.
    #[inline(always)]
    pub fn segment(&self, buf: Buf) -> usize
        ensures { result ≡ seg_of self.now buf }
    {
        match buf {
            Buf::New(b) => self.segs.get(b) as usize,
            Buf::Source(k) => k as usize + 1,
        }
    }
}
