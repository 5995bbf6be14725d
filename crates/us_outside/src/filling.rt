// A part of a file.
ghost use Rattle.std.specs.Prelude.{◌≡◌, ◌+◌, ◌<◌, ◌≤◌, ◌^◌, length, take, drop, IfOk, IfSome, IsErrOf};
ghost use Rattle.us_outside.specs.declared.outside.Call.TheVariants.{Fetch};
ghost use Rattle.us_outside.specs.declared.outside.OutsideFault.TheVariants.{Failed, Memory};
ghost use Rattle.us_outside.specs.Files.{content_of, IsFetch, IsFilled};
ghost use Rattle.us_outside.specs.Causes.{Rose, NeverFell, HasCause};

use crate::{Outside, OutsideFault};

/// Fetches the bytes of a file from a place on until the room is full or the file ends, and answers how many came.
/// Fewer than the room has places mean the end.
pub fn fill<O: Outside>(
    outside: &mut O,
    name: &str,
    from: u64,
    room: &mut [u8],
) -> Result<usize, OutsideFault>
    requires { from + length room.old < 2 ^ 64 }
    ensures bound { IfOk result (λ n. n ≤ length room.new) }
    ensures bytes { IfOk result (λ n. IfSome (O.files outside.old) (λ fs. IsFilled (content_of fs name.now) from n room.new)) }
    ensures failed { IsErrOf result Failed → Rose (O.faults outside.old Fetch name.now) (O.faults outside.new Fetch name.now) }
    ensures no_memory { IsErrOf result Memory → ⊥ }
    ensures files { O.files outside.new ≡ O.files outside.old }
    ensures printed { O.printed outside.new ≡ O.printed outside.old }
    ensures later { NeverFell (O.faults outside.old) (O.faults outside.new) }
{
    let mut filled = 0;
    while filled < room.len() {
        let Ok(count) = fetch_behind(outside, name, from, room, filled) else {
            return Err(OutsideFault::Failed);
        };
        if count == 0 {
            return Ok(filled);
        }
        filled += count;
    }
    Ok(filled)
}

// One fetch into the room behind the bytes that are there.
fn fetch_behind<O: Outside>(
    outside: &mut O,
    name: &str,
    from: u64,
    room: &mut [u8],
    filled: usize,
) -> Result<usize, OutsideFault>
    requires room { from + length room.old < 2 ^ 64 }
    requires filled { filled ≤ length room.old }
    ensures bound { IfOk result (λ n. filled + n ≤ length room.new) }
    ensures bytes { IfOk result (λ n. IfSome (O.files outside.old) (λ fs. IsFetch (content_of fs name.now) (from + filled) n (drop filled room.new))) }
    ensures front { take filled room.new ≡ take filled room.old }
    ensures files { O.files outside.new ≡ O.files outside.old }
    ensures printed { O.printed outside.new ≡ O.printed outside.old }
    ensures cause { HasCause (O.faults outside.old) (O.faults outside.new) Fetch name.now result }
    ensures no_memory { IsErrOf result Memory → ⊥ }
{
    outside.fetch(name, from + filled as u64, &mut room[filled..])
}
