//! The command that says what a file is.
ghost use Rattle.us_top.specs.Tasks.{info_task};
ghost use Rattle.us_status.specs.Runs.{IsRunOf, told};

use crate::info_lines::info_lines;
use std::alloc::Global;
use us_inputs::read_input;
use us_outside::Outside;
use us_status::{Slot, Status, finish};

/// Prints what the input is: a matrix file, or a container with its format, size and buffers.
pub fn info<O: Outside>(alloc: Global, outside: &mut O, input: &str) -> Status
    ensures { IsRunOf (info_task input.now)
        (told (O.files outside.old) (O.printed outside.old) (O.faults outside.old))
        (told (O.files outside.new) (O.printed outside.new) (O.faults outside.new)) result }
{
    let input = match read_input(alloc, outside, Slot::Input, input) {
        Ok(input) => input,
        Err(status) => return status,
    };
    let Ok(lines) = info_lines(alloc, &input) else {
        return Status::Memory;
    };
    finish(outside, &[], Some(&lines))
}
