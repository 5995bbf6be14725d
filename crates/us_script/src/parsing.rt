// The reader of scripts.
ghost use Rattle.std.specs.Prelude.{◌≡◌, ◌<◌, ◌^◌, ◌∷◌, ◌++◌, [], length, IfOk, OnOk};
ghost use Rattle.us_script.specs.Steps.{IsSound, is_size, lacks_set, sets_after, sizes_after};
ghost use Rattle.us_script.specs.Reads.{reads_script, step_of, step_at, is_too_many};
ghost use Rattle.us_script.specs.Views.{Gives, Takes};

use crate::fault::ScriptFault;
use crate::lines::first_line;
use crate::reading::step_of;
use crate::script::Script;
use crate::step::Step;
use std::alloc::{AllocError, Global};
use std::marker::Model;
use us_matrix::Shape;
use us_mm_lines::is_skipped;

// The most steps of a script, and the most of them that are `size`.
const MOST_STEPS: usize = 1048576;

const MOST_SIZES: u64 = 256;

// The steps that are read, how many of them are `size`, and how many sets aren't undone.
#[derive(Drop)]
struct Counted {
    steps: Vec<Step>,
    sizes: u64,
    sets: u64,
}

impl Model for Counted {
    ghost use Rattle.std.specs.Prelude.{List};
    ghost use Rattle.us_script.specs.declared.step.Step.{Step};
    ghost use Rattle.us_script.specs.Steps.{IsCounted};

    ghost Value = { List Step };

    ghost view = { λ c. c.steps.items };

    ghost invariant = { λ c. IsCounted c.steps.items c.sizes c.sets };
}

impl Counted {
    fn new(alloc: Global) -> Counted
        ensures { result ≡ [] }
    {
        Counted {
            steps: Vec::new(alloc),
            sizes: 0,
            sets: 0,
        }
    }

    // The step of a line that isn't skipped, which has that number.
    fn take(&mut self, number: u64, shape: Shape, line: &[u8]) -> Result<(), ScriptFault>
        ensures { Takes result (step_at shape.rows shape.cols self.old (number, line.now)) self.old self.new }
    {
        let step = step_of(number, shape, line)?;
        if lacks_set(self.sets, step) {
            return Err(ScriptFault::Nothing { line: number });
        }
        if self.is_too_many(step) {
            return Err(ScriptFault::TooMany { line: number });
        }
        self.push(step)?;
        Ok(())
    }

    // Whether there is no room for the step.
    fn is_too_many(&self, step: Step) -> bool
        ensures { result ≡ is_too_many self.now step }
    {
        self.steps.len() >= MOST_STEPS || is_size(step) && self.sizes >= MOST_SIZES
    }

    fn push(&mut self, step: Step) -> Result<(), AllocError>
        requires { length self.old < 1048576 }
        ensures { OnOk result (self.new ≡ self.old ++ step ∷ []) }
    {
        let sizes = sizes_after(self.sizes, step);
        let sets = sets_after(self.sets, step);
        self.steps.push(step)?;
        self.sizes = sizes;
        self.sets = sets;
        Ok(())
    }

    fn script(self) -> Script
        ensures { result ≡ self }
    {
        Script::of(self.steps)
    }
}

fn is_size(step: Step) -> bool
    ensures { result ≡ is_size step }
{
    match step {
        Step::Size { line: _ } => true,
        Step::Set { i: _, j: _, v: _ } | Step::Undo => false,
    }
}

// Whether the step undoes a set where there is none.
fn lacks_set(sets: u64, step: Step) -> bool
    ensures { result ≡ lacks_set sets step }
{
    match step {
        Step::Undo => sets == 0,
        Step::Set { i: _, j: _, v: _ } | Step::Size { line: _ } => false,
    }
}

fn sizes_after(sizes: u64, step: Step) -> u64
    requires { sizes < 2 ^ 63 }
    ensures { result ≡ sizes_after sizes step }
{
    match step {
        Step::Size { line: _ } => sizes + 1,
        Step::Set { i: _, j: _, v: _ } | Step::Undo => sizes,
    }
}

fn sets_after(sets: u64, step: Step) -> u64
    requires { sets < 2 ^ 63 }
    ensures { result ≡ sets_after sets step }
{
    match step {
        Step::Set { i: _, j: _, v: _ } => sets + 1,
        Step::Undo => sets.saturating_sub(1),
        Step::Size { line: _ } => sets,
    }
}

/// The steps of a script for a matrix of this shape, or the first fault in it: of the first line that has one, the first
/// that applies in the order of `ScriptFault`. Lines that are empty or of blanks alone are skipped, and those that begin with
/// `%`; every other line is `set I J V`, `undo` or `size`, with blanks between the words. Rows, columns and lines count from 1.
pub fn parse_script(alloc: Global, bytes: &[u8], shape: Shape) -> Result<Script, ScriptFault>
    ensures value { Gives result (reads_script shape.rows shape.cols bytes.now) }
    ensures sound { IfOk result (IsSound shape.rows shape.cols) }
{
    let mut counted = Counted::new(alloc);
    let mut number = 0u64;
    let mut rest = bytes;
    while !rest.is_empty() {
        let (line, behind) = first_line(rest);
        number += 1;
        rest = behind;
        if !is_skipped(line) {
            counted.take(number, shape, line)?;
        }
    }
    Ok(counted.script())
}
