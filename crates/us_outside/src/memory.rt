//! Files in memory, which tell everything, with calls that are to fail.
ghost use Rattle.std.specs.Prelude.{◌≡◌, ◌≤◌, ◌++◌, [], ◌∷◌, ℕ};
ghost use Rattle.std.specs.Prelude.{true, false, IfOk, IsErrOf, map, length, take, Some, None, OnOk, OnErr, MatchOption};
ghost use Rattle.std.specs.FinMap as finite;
ghost use Rattle.us_outside.specs.declared.outside.Call.{Call};
ghost use Rattle.us_outside.specs.Causes.{Rose, HasCause};
ghost use Rattle.us_outside.specs.Files.{stored, content_of, IsFetch, StoresPart, PrintsPart};
ghost use Rattle.us_outside.specs.Folder.{files_in};
ghost use Rattle.us_outside.specs.Memory.{Plan, plan_of, kept_by, fetches, next_call, calls, memory_files, memory_printed, memory_faults, plans};

use crate::folder::{Folder, copy_from};
use crate::{Call, Outside, OutsideFault};
use std::alloc::{AllocError, Global};

/// A call that is to fail, and how many bytes of a store or a print it keeps.
#[derive(Clone, Copy)]
struct Planned {
    call: Call,
    nth: u64,
    keep: u64,
}

/// Files and prints in memory.
#[derive(Drop)]
pub struct MemoryOutside {
    folder: Folder,
    printed: Vec<u8>,
    planned: Vec<Planned>,
    fetches: u64,
    stores: u64,
    prints: u64,
    faults: u64,
}

impl MemoryOutside {
    ghost use Rattle.us_outside.specs.Memory.{memory_files, memory_printed, memory_faults, calls, plans};

    /// No files, nothing printed and no call that is to fail.
    pub fn new(alloc: Global) -> MemoryOutside
        ensures files { memory_files result ≡ finite.empty }
        ensures printed { memory_printed result ≡ [] }
        ensures faults { memory_faults result ≡ 0 }
        ensures calls { (call : Call) → calls result call ≡ 0 }
        ensures plans { plans result ≡ [] }
    {
        MemoryOutside {
            folder: Folder::new(alloc),
            printed: Vec::new(alloc),
            planned: Vec::new(alloc),
            fetches: 0,
            stores: 0,
            prints: 0,
            faults: 0,
        }
    }

    /// Sets a file.
    pub fn put(&mut self, name: &str, bytes: &[u8]) -> Result<(), AllocError>
        ensures ok { OnOk result (memory_files self.new ≡ stored name.now bytes.now (memory_files self.old)) }
        ensures err { OnErr result (memory_files self.new ≡ memory_files self.old) }
        ensures printed { memory_printed self.new ≡ memory_printed self.old }
        ensures plans { plans self.new ≡ plans self.old }
        ensures faults { memory_faults self.new ≡ memory_faults self.old }
        ensures calls { (kind : Call) → calls self.new kind ≡ calls self.old kind }
    {
        self.folder.put(name, bytes)
    }

    /// The bytes of a file, where there is one.
    pub fn file(&self, name: &str) -> Option<&[u8]>
        ensures { MatchOption result (finite.get (memory_files self.now) name.now ≡ None)
            (λ bytes. finite.get (memory_files self.now) name.now ≡ Some bytes.now) }
    {
        self.folder.get(name)
    }

    /// What was printed.
    pub fn printed(&self) -> &[u8]
        ensures { result.now ≡ memory_printed self.now }
    {
        &self.printed
    }

    /// Lets the nth call of this kind fail, counted from 1 since `new`. A store or a print keeps that many of its bytes.
    pub fn fail(&mut self, call: Call, nth: u64, keep: u64) -> Result<(), AllocError>
        ensures ok { OnOk result (plans self.new ≡ plans self.old ++ record { call = call; nth = nth; keep = keep } ∷ []) }
        ensures err { OnErr result (plans self.new ≡ plans self.old) }
        ensures files { memory_files self.new ≡ memory_files self.old }
        ensures printed { memory_printed self.new ≡ memory_printed self.old }
        ensures faults { memory_faults self.new ≡ memory_faults self.old }
        ensures calls { (kind : Call) → calls self.new kind ≡ calls self.old kind }
    {
        self.planned.push(Planned { call, nth, keep })?;
        Ok(())
    }

    // Counts one more fault, up to the largest number.
    fn count_fault(&mut self)
        ensures rose { Rose self.old.faults self.new.faults }
        ensures later { self.old.faults ≤ self.new.faults }
        ensures same { self.new ≡ record self.old { faults = self.new.faults } }
    {
        self.faults = self.faults.saturating_add(1);
    }
}

impl Outside for MemoryOutside {
    ghost files = { λ m. Some (files_in m.folder) };

    ghost printed = { λ m. Some m.printed.items };

    ghost faults = { λ m _ _. m.faults };

    /// A fetch fails exactly where it was planned to, or where there is no such file.
    fn fetch(&mut self, name: &str, from: u64, room: &mut [u8]) -> Result<usize, OutsideFault>
        ensures bound { IfOk result (λ n. n ≤ length room.new) }
        ensures bytes { IfOk result (λ n. IsFetch (content_of (memory_files self.old) name.now) from n room.new) }
        ensures files { memory_files self.new ≡ memory_files self.old }
        ensures printed { memory_printed self.new ≡ memory_printed self.old }
        ensures cause { HasCause (λ _ _. memory_faults self.old) (λ _ _. memory_faults self.new) Call.Fetch name.now result }
        ensures no_memory { IsErrOf result OutsideFault.Memory → ⊥ }
        ensures fetched { OnOk result (fetches (next_call self.old Call.Fetch) (plans self.old) (memory_files self.old) name.now ≡ true) }
        ensures failed { OnErr result (fetches (next_call self.old Call.Fetch) (plans self.old) (memory_files self.old) name.now ≡ false) }
        ensures plans { plans self.new ≡ plans self.old }
        ensures calls { (calls self.new Call.Fetch ≡ next_call self.old Call.Fetch)
            × (calls self.new Call.Store ≡ calls self.old Call.Store) × (calls self.new Call.Print ≡ calls self.old Call.Print) }
    {
        self.fetches = self.fetches.saturating_add(1);
        if keeps(&self.planned, Call::Fetch, self.fetches).is_none() {
            if let Some(bytes) = self.folder.get(name) {
                return Ok(copy_from(bytes, from, room));
            }
        }
        self.count_fault();
        Err(OutsideFault::Failed)
    }

    /// A store fails exactly where it was planned to, and then keeps as many bytes as the plan says.
    fn store(&mut self, name: &str, bytes: &[u8]) -> Result<(), OutsideFault>
        ensures ok { OnOk result (memory_files self.new ≡ stored name.now bytes.now (memory_files self.old)) }
        ensures failed { IsErrOf result OutsideFault.Failed → StoresPart name.now bytes.now (Some (memory_files self.old)) (Some (memory_files self.new)) }
        ensures memory { IsErrOf result OutsideFault.Memory → memory_files self.new ≡ memory_files self.old }
        ensures printed { memory_printed self.new ≡ memory_printed self.old }
        ensures cause { HasCause (λ _ _. memory_faults self.old) (λ _ _. memory_faults self.new) Call.Store name.now result }
        ensures passed { OnOk result (kept_by Call.Store (next_call self.old Call.Store) (plans self.old) ≡ None) }
        ensures kept { IsErrOf result OutsideFault.Failed → MatchOption (kept_by Call.Store (next_call self.old Call.Store) (plans self.old)) ⊥
            (λ keep. memory_files self.new ≡ stored name.now (take keep bytes.now) (memory_files self.old)) }
        ensures plans { plans self.new ≡ plans self.old }
        ensures calls { (calls self.new Call.Store ≡ next_call self.old Call.Store)
            × (calls self.new Call.Fetch ≡ calls self.old Call.Fetch) × (calls self.new Call.Print ≡ calls self.old Call.Print) }
    {
        self.stores = self.stores.saturating_add(1);
        match keeps(&self.planned, Call::Store, self.stores) {
            None => Ok(self.folder.put(name, bytes)?),
            Some(keep) => {
                self.folder.put(name, front(bytes, keep))?;
                self.count_fault();
                Err(OutsideFault::Failed)
            }
        }
    }

    /// A print fails exactly where it was planned to, and then keeps as many bytes as the plan says.
    fn print(&mut self, bytes: &[u8]) -> Result<(), OutsideFault>
        ensures ok { OnOk result (memory_printed self.new ≡ memory_printed self.old ++ bytes.now) }
        ensures failed { IsErrOf result OutsideFault.Failed → PrintsPart bytes.now (Some (memory_printed self.old)) (Some (memory_printed self.new)) }
        ensures memory { IsErrOf result OutsideFault.Memory → memory_printed self.new ≡ memory_printed self.old }
        ensures files { memory_files self.new ≡ memory_files self.old }
        ensures cause { HasCause (λ _ _. memory_faults self.old) (λ _ _. memory_faults self.new) Call.Print [] result }
        ensures passed { OnOk result (kept_by Call.Print (next_call self.old Call.Print) (plans self.old) ≡ None) }
        ensures kept { IsErrOf result OutsideFault.Failed → MatchOption (kept_by Call.Print (next_call self.old Call.Print) (plans self.old)) ⊥
            (λ keep. memory_printed self.new ≡ memory_printed self.old ++ take keep bytes.now) }
        ensures plans { plans self.new ≡ plans self.old }
        ensures calls { (calls self.new Call.Print ≡ next_call self.old Call.Print)
            × (calls self.new Call.Fetch ≡ calls self.old Call.Fetch) × (calls self.new Call.Store ≡ calls self.old Call.Store) }
    {
        self.prints = self.prints.saturating_add(1);
        match keeps(&self.planned, Call::Print, self.prints) {
            None => Ok(self.printed.extend_from_slice(bytes)?),
            Some(keep) => {
                self.printed.extend_from_slice(front(bytes, keep))?;
                self.count_fault();
                Err(OutsideFault::Failed)
            }
        }
    }
}

// How many bytes a call keeps that is to fail; none where it isn't.
fn keeps(planned: &[Planned], call: Call, nth: u64) -> Option<u64>
    ensures { result ≡ kept_by call nth (map plan_of planned.now) }
{
    for plan in planned {
        if plan.call == call && plan.nth == nth {
            return Some(plan.keep);
        }
    }
    None
}

fn front(bytes: &[u8], keep: u64) -> &[u8]
    ensures { result.now ≡ take keep bytes.now }
{
    if keep < bytes.len() as u64 {
        &bytes[..keep as usize]
    } else {
        bytes
    }
}
