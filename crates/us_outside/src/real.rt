// The files and the standard output of the system, which tell nothing.
ghost use Rattle.std.specs.Prelude.{◌≡◌, ◌≤◌, None, Ok, length, IfOk, IsErrOf};
ghost use Rattle.us_outside.specs.Causes.{Rose};
ghost use Rattle.us_outside.specs.declared.outside.OutsideFault.TheVariants.{Failed, Memory};

use crate::{Outside, OutsideFault};
use std::fs::File;
use std::io;
use std::io::{Read, Seek, SeekFrom};
use std::rt::Files;

/// Real files and standard output. It counts each error of the system.
#[derive(Drop)]
pub struct RealOutside<R: Files + Print + Drop> {
    rt: R,
    faults: u64,
}

impl<R: Files + Print + Drop> RealOutside<R> {
    /// Over the runtime that `main` is given, with no fault yet.
    pub fn new(rt: R) -> RealOutside<R>
        ensures { result.faults ≡ 0 }
    {
        RealOutside { rt, faults: 0 }
    }

    // What the system said, each of its errors counted.
    fn counted<T: Drop>(&mut self, said: io::Result<T>) -> Result<T, OutsideFault>
        ensures ok { IfOk result (λ x. said ≡ Ok x) }
        ensures no_memory { IsErrOf result Memory → ⊥ }
        ensures later { self.old.faults ≤ self.new.faults }
        ensures failed { IsErrOf result Failed → Rose self.old.faults self.new.faults }
    {
        match said {
            Ok(value) => Ok(value),
            Err(_) => {
                self.faults = self.faults.saturating_add(1);
                Err(OutsideFault::Failed)
            }
        }
    }
}

impl<R: Files + Print + Drop> Outside for RealOutside<R> {
    ghost files = { λ _. None };

    ghost printed = { λ _. None };

    ghost faults = { λ o _ _. o.faults };

    fn fetch(&mut self, name: &str, from: u64, room: &mut [u8]) -> Result<usize, OutsideFault> {
        let said = read_from(&self.rt, name, from, room);
        self.counted(said)
    }

    fn store(&mut self, name: &str, bytes: &[u8]) -> Result<(), OutsideFault> {
        let said = std::fs::write(&self.rt, name, bytes);
        self.counted(said)
    }

    fn print(&mut self, bytes: &[u8]) -> Result<(), OutsideFault> {
        let said = self.rt.write_all(bytes);
        self.counted(said)
    }
}

// The bytes of a file from a place on, as many as fit.
fn read_from<R: Files>(rt: &R, name: &str, from: u64, room: &mut [u8]) -> io::Result<usize>
    ensures { IfOk result (λ n. n ≤ length room.new) }
{
    let mut file = File::open(rt, name)?;
    file.seek(SeekFrom::Start(from))?;
    file.read(room)
}
