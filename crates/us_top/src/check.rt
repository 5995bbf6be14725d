//! The command that judges the declarations of a library.
ghost use Rattle.std.specs.Prelude.{◌<◌, ◌^◌};
ghost use Rattle.us_top.specs.Tasks.{check_task};
ghost use Rattle.us_status.specs.Runs.{IsRunOf, told};
ghost use Rattle.us_top.specs.Views.{shape_view};

use crate::report::report;
use std::alloc::Global;
use us_inputs::read_library;
use us_matrix::Shape;
use us_outside::Outside;
use us_status::{Slot, Status, finish};

/// Prints a line for each declaration of the library.
pub fn check<O: Outside>(alloc: Global, outside: &mut O, formats: &str, shape: Shape) -> Status
    requires rows { shape.rows < 2 ^ 31 }
    requires cols { shape.cols < 2 ^ 31 }
    ensures { IsRunOf (check_task formats.now (shape_view shape))
        (told (O.files outside.old) (O.printed outside.old) (O.faults outside.old))
        (told (O.files outside.new) (O.printed outside.new) (O.faults outside.new)) result }
{
    let library = match read_library(alloc, outside, Slot::Formats, formats) {
        Ok(library) => library,
        Err(status) => return status,
    };
    let Ok(lines) = report(alloc, &library, shape) else {
        return Status::Memory;
    };
    finish(outside, &[], Some(&lines))
}
