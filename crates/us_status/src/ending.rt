//! How commands end: what is stored and printed once all steps have passed.
ghost use Rattle.std.specs.Prelude.{◌≡◌, [], ◌∷◌, IfErr, IfSome, None, OnOk, Some, map};
ghost use Rattle.std.specs.Option.{option_map};
ghost use Rattle.us_outside.specs.Causes.{NeverFell};
ghost use Rattle.us_outside.specs.Files.{stored};
ghost use Rattle.us_status.specs.declared.status.Status.TheVariants.{Done};
ghost use Rattle.us_status.specs.Uses.{stores};
ghost use Rattle.us_status.specs.Stands.{Stands, StopsInStore, StopsInStores, after_stores};
ghost use Rattle.us_status.specs.Answers.{IsAnswer, IsCaused, store_use, writes};
ghost use Rattle.us_status.specs.Stands.{listing_store, output_of};
ghost use Rattle.us_status.specs.Views.{store_view, outcome_view};

use crate::{Slot, Status};
use us_outside::{Outside, OutsideFault};

/// A file that is to be stored.
#[derive(Clone, Copy)]
pub struct Store<'a> {
    pub slot: Slot,
    pub name: &'a str,
    pub bytes: &'a [u8],
}

impl<'a> Store<'a> {
    /// The output.
    pub fn output(name: &'a str, bytes: &'a [u8]) -> Store<'a>
        ensures { store_view result ≡ output_of name.now bytes.now }
    {
        Store {
            slot: Slot::Output,
            name,
            bytes,
        }
    }

    /// The listing.
    pub fn listing(name: &'a str, bytes: &'a [u8]) -> Store<'a>
        ensures { store_view result ≡ listing_store name.now bytes.now }
    {
        Store {
            slot: Slot::Listing,
            name,
            bytes,
        }
    }
}

/// Stores the files in order, and then prints the lines, where any are given.
pub fn finish<O: Outside>(outside: &mut O, stores: &[Store<'_>], lines: Option<&[u8]>) -> Status
    ensures answer { IsAnswer [] Done result }
    ensures cause { IsCaused (writes (outcome_view stores.now lines.entry)) (O.faults outside.old) (O.faults outside.new) result }
    ensures stands { IfSome (O.files outside.old) (λ fs.
        Stands (outcome_view stores.now lines.entry) result fs (O.printed outside.old) (O.files outside.new) (O.printed outside.new)) }
    ensures printed { (outcome_view stores.now lines.entry).prints ≡ None → O.printed outside.new ≡ O.printed outside.old }
    ensures later { NeverFell (O.faults outside.old) (O.faults outside.new) }
{
    if let Err(status) = store_all(outside, stores) {
        return status;
    }
    let Some(lines) = lines else {
        return Status::Done;
    };
    match outside.print(lines) {
        Ok(()) => Status::Done,
        Err(OutsideFault::Failed) => Status::WriteFault { slot: Slot::Print },
        Err(OutsideFault::Memory) => Status::Memory,
    }
}

// Stores the files in order, up to the first that isn't stored.
fn store_all<O: Outside>(outside: &mut O, stores: &[Store<'_>]) -> Result<(), Status>
    ensures ok { OnOk result (IfSome (O.files outside.old) (λ fs. O.files outside.new ≡ Some (after_stores (map store_view stores.now) fs))) }
    ensures stops { IfErr result (λ status. IfSome (O.files outside.old) (λ fs. StopsInStores status (map store_view stores.now) fs (O.files outside.new))) }
    ensures answer { IfErr result (IsAnswer [] Done) }
    ensures cause { IfErr result (IsCaused (map store_use (map store_view stores.now)) (O.faults outside.old) (O.faults outside.new)) }
    ensures printed { O.printed outside.new ≡ O.printed outside.old }
    ensures later { NeverFell (O.faults outside.old) (O.faults outside.new) }
{
    for store in stores {
        store_one(outside, store)?;
    }
    Ok(())
}

fn store_one<O: Outside>(outside: &mut O, store: &Store<'_>) -> Result<(), Status>
    ensures ok { OnOk result (O.files outside.new ≡ option_map (stored store.now.name.now store.now.bytes.now) (O.files outside.old)) }
    ensures stops { IfErr result (λ status. IfSome (O.files outside.old) (λ fs. StopsInStore status (store_view store.now) fs (O.files outside.new))) }
    ensures answer { IfErr result (IsAnswer [] Done) }
    ensures cause { IfErr result (IsCaused (store_use (store_view store.now) ∷ []) (O.faults outside.old) (O.faults outside.new)) }
    ensures printed { O.printed outside.new ≡ O.printed outside.old }
    ensures later { NeverFell (O.faults outside.old) (O.faults outside.new) }
{
    match outside.store(store.name, store.bytes) {
        Ok(()) => Ok(()),
        Err(OutsideFault::Failed) => Err(Status::WriteFault { slot: store.slot }),
        Err(OutsideFault::Memory) => Err(Status::Memory),
    }
}
