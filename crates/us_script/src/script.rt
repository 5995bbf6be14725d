// A list of steps.
ghost use Rattle.std.specs.Prelude.{◌≡◌, [], ◌∷◌, ◌++◌, OnOk, OnErr, length};

use crate::step::Step;
use std::alloc::{AllocError, Global};
use std::marker::Model;

/// The steps of a script in their order. Contracts see it as their list.
#[derive(Debug, Drop)]
pub struct Script {
    steps: Vec<Step>,
}

impl Model for Script {
    ghost use Rattle.std.specs.Prelude.{List};
    ghost use Rattle.us_script.specs.declared.step.Step.{Step};

    ghost Value = { List Step };

    ghost view = { λ s. s.steps.items };
}

impl Script {
    /// The script of these steps.
    pub fn of(steps: Vec<Step>) -> Script
        ensures { result ≡ steps.items }
    {
        Script { steps }
    }

    /// No step yet.
    pub fn new(alloc: Global) -> Script
        ensures { result ≡ [] }
    {
        Script {
            steps: Vec::new(alloc),
        }
    }

    /// One step more, at the end.
    pub fn push(&mut self, step: Step) -> Result<(), AllocError>
        ensures ok { OnOk result (self.new ≡ self.old ++ step ∷ []) }
        ensures err { OnErr result (self.new ≡ self.old) }
    {
        self.steps.push(step)?;
        Ok(())
    }

    /// The steps in their order.
    pub fn steps(&self) -> &[Step]
        ensures { result.now ≡ self.now }
    {
        &self.steps
    }
}
