// Files in memory, as a log of what was stored, the newest first.
ghost use Rattle.std.specs.Prelude.{◌≡◌, ◌≤◌, length, Some, None, OnOk, OnErr, MatchOption};
ghost use Rattle.std.specs.FinMap as finite;
ghost use Rattle.us_outside.specs.Files.{stored, IsFetch};
ghost use Rattle.us_outside.specs.Folder.{files_of, files_in};

use std::alloc::{AllocError, Global};
use std::collections::VecDeque;

/// A file as it was stored.
#[derive(Drop)]
pub struct File {
    name: String,
    bytes: Vec<u8>,
}

/// Files by their names. Of one name the newest counts.
#[derive(Drop)]
pub struct Folder {
    alloc: Global,
    log: VecDeque<File>,
}

impl Folder {
    /// No files.
    pub fn new(alloc: Global) -> Folder
        ensures { files_in result ≡ finite.empty }
    {
        Folder {
            alloc,
            log: VecDeque::new(alloc),
        }
    }

    /// Sets a file.
    pub fn put(&mut self, name: &str, bytes: &[u8]) -> Result<(), AllocError>
        ensures ok { OnOk result (files_in self.new ≡ stored name.now bytes.now (files_in self.old)) }
        ensures err { OnErr result (files_in self.new ≡ files_in self.old) }
    {
        let name = String::from_str(self.alloc, name)?;
        let bytes = Vec::from_slice(self.alloc, bytes)?;
        self.log.push_front(File { name, bytes })?;
        Ok(())
    }

    /// The bytes of a file, where there is one.
    pub fn get(&self, name: &str) -> Option<&[u8]>
        ensures { MatchOption result (finite.get (files_in self.now) name.now ≡ None) (λ bytes. finite.get (files_in self.now) name.now ≡ Some bytes.now) }
    {
        newest(&self.log, name)
    }
}

// The newest file of a name.
fn newest<'a>(log: &'a VecDeque<File>, name: &str) -> Option<&'a [u8]>
    ensures { MatchOption result (finite.get (files_of log.now.items) name.now ≡ None) (λ bytes. finite.get (files_of log.now.items) name.now ≡ Some bytes.now) }
{
    for file in log {
        if file.name.as_str() == name {
            return Some(&file.bytes);
        }
    }
    None
}

/// Copies the bytes from a place on, as many as fit.
pub fn copy_from(bytes: &[u8], from: u64, room: &mut [u8]) -> usize
    ensures bound { result ≤ length room.new }
    ensures copied { IsFetch bytes.now from result room.new }
{
    if from >= bytes.len() as u64 {
        return 0;
    }
    let rest = &bytes[from as usize..];
    let count = rest.len().min(room.len());
    room[..count].copy_from_slice(&rest[..count]);
    count
}
