//! The command that writes a matrix file anew.
ghost use Rattle.us_top.specs.Tasks.{canon_task};
ghost use Rattle.us_status.specs.Runs.{IsRunOf, told};

use std::alloc::Global;
use us_inputs::read_input;
use us_mm::write_coordinate;
use us_outside::Outside;
use us_status::{Slot, Status, Store, finish};

/// Stores the canonical text of the input's matrix as the output.
pub fn canon<O: Outside>(alloc: Global, outside: &mut O, input: &str, output: &str) -> Status
    ensures { IsRunOf (canon_task input.now output.now)
        (told (O.files outside.old) (O.printed outside.old) (O.faults outside.old))
        (told (O.files outside.new) (O.printed outside.new) (O.faults outside.new)) result }
{
    let input = match read_input(alloc, outside, Slot::Input, input) {
        Ok(input) => input,
        Err(status) => return status,
    };
    let Ok(text) = write_coordinate(alloc, input.matrix()) else {
        return Status::Memory;
    };
    finish(outside, &[Store::output(output, &text)], None)
}
