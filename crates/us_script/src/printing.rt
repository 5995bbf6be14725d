// The text of a script.
ghost use Rattle.std.specs.Prelude.{◌≡◌, ◌++◌, IfOk, OnOk, ℤ};
ghost use Rattle.us_script.specs.Text.{script_text, step_line, set_line};

use crate::script::Script;
use crate::step::Step;
use itoa::Buffer;
use std::alloc::{AllocError, Global};

/// The text of a script: a line `set I J V`, `undo` or `size` for each step, with one space between words, each ended by LF.
/// Rows and columns count from 1.
pub fn print_script(alloc: Global, script: &Script) -> Result<Vec<u8>, AllocError>
    ensures { IfOk result (λ v. v.items ≡ script_text script.now) }
{
    let mut out = Vec::new(alloc);
    let steps = script.steps();
    for step in steps {
        push_step(&mut out, *step)?;
    }
    Ok(out)
}

fn push_step(out: &mut Vec<u8>, step: Step) -> Result<(), AllocError>
    ensures { OnOk result (out.new.items ≡ out.old.items ++ step_line step) }
{
    match step {
        Step::Set { i, j, v } => push_set(out, i, j, v),
        Step::Undo => out.extend_from_slice(b"undo\n"),
        Step::Size { line: _ } => out.extend_from_slice(b"size\n"),
    }
}

fn push_set(out: &mut Vec<u8>, i: u32, j: u32, v: i64) -> Result<(), AllocError>
    ensures { OnOk result (out.new.items ≡ out.old.items ++ set_line i j v) }
{
    let mut buffer = Buffer::new();
    out.extend_from_slice(b"set ")?;
    out.extend_from_slice(buffer.format(u64::from(i) + 1).as_bytes())?;
    out.push(b' ')?;
    out.extend_from_slice(buffer.format(u64::from(j) + 1).as_bytes())?;
    out.push(b' ')?;
    out.extend_from_slice(buffer.format(v).as_bytes())?;
    out.push(b'\n')?;
    Ok(())
}
