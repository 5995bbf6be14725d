//! Files of a real folder, and a file that never ends.

ghost use Rattle.std.specs.Prelude.{None};

use std::alloc::Global;
use std::test::Fail;
use us_outside::{
    Call, LoadFault, MemoryOutside, Outside, OutsideFault, RealOutside, SureOutside, load,
};

/// An outside in which each file goes on for ever.
struct Zeros;

impl Outside for Zeros {
    ghost files = { λ _. None };

    ghost printed = { λ _. None };

    ghost faults = { λ _ _ _. 0 };

    fn fetch(&mut self, _name: &str, _from: u64, room: &mut [u8]) -> Result<usize, OutsideFault> {
        Ok(room.len())
    }

    fn store(&mut self, _name: &str, _bytes: &[u8]) -> Result<(), OutsideFault> {
        Ok(())
    }

    fn print(&mut self, _bytes: &[u8]) -> Result<(), OutsideFault> {
        Ok(())
    }
}

/// The length of a file, or why it is not loaded.
fn loaded<O: Outside>(alloc: Global, outside: &mut O, name: &str) -> Result<usize, LoadFault> {
    match load(alloc, outside, name) {
        Ok(bytes) => Ok(bytes.len()),
        Err(fault) => Err(fault),
    }
}

#[test]
fn a_file_without_end_is_too_long(rt: HostRuntime) {
    let mut outside = Zeros;
    let answer = loaded(rt.alloc(), &mut outside, "A");
    assert_eq!(rt; answer, Err(LoadFault::TooLong));
    let Zeros = outside;
}

#[test]
fn a_real_file_is_stored_and_loaded(rt: HostRuntime) -> Result<(), Fail> {
    let alloc = rt.alloc();
    let mut outside = RealOutside::new(rt.clone()?);
    outside.store("A", b"some bytes")?;
    outside.print(b"printed\n")?;
    let bytes = load(alloc, &mut outside, "A")?;
    assert_eq!(rt; bytes.as_slice(), b"some bytes".as_slice());
    let mut room = [0u8; 4];
    assert_eq!(rt; outside.fetch("B", 0, &mut room), Err(OutsideFault::Failed));
    Ok(())
}

#[test]
fn files_in_memory(rt: HostRuntime) -> Result<(), Fail> {
    let alloc = rt.alloc();
    let mut outside = MemoryOutside::new(alloc);
    outside.fail(Call::Print, 2, 1)?;
    outside.print(b"ab")?;
    assert_eq!(rt; outside.print(b"cd"), Err(OutsideFault::Failed));
    assert_eq!(rt; outside.printed(), b"abc".as_slice());
    let mut sure = SureOutside::new(alloc);
    sure.put("A", b"x")?;
    assert_eq!(rt; loaded(alloc, &mut sure, "B"), Ok(0));
    assert_eq!(rt; sure.file("A"), Some(b"x".as_slice()));
    Ok(())
}
