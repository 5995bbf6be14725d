//! How many steps a run may take.
ghost use Rattle.std.specs.Prelude.{◌≡◌, ◌+◌, ◌<◌, ◌≤◌, ◌^◌, ◌&&◌, nat_lt, true, ℕ, IfErr, OnOk, OnErr};
ghost use Rattle.us_machine.specs.Steps.{Shows, IsOver, budget_of};
ghost use Rattle.us_machine.specs.declared.stop.RunStop.TheVariants.{OutOfSteps};

use crate::stop::RunStop;

/// How many steps are counted, and whether a run may take no more.
#[derive(Clone, Copy, Debug, PartialEq, Eq)]
pub struct Budget {
    pub limit: u64,
    pub bounded: bool,
}

impl Budget {
    /// So many steps, or any number, of which 18446744073709551615 are counted.
    pub fn new(steps: Option<u64>) -> Budget
        ensures { result ≡ budget_of steps }
    {
        match steps {
            Some(limit) => Budget {
                limit,
                bounded: true,
            },
            None => Budget {
                limit: u64::MAX,
                bounded: false,
            },
        }
    }

    /// Counts steps, unless the run may not take them.
    #[inline(always)]
    pub fn charge(self, steps: &mut u64, count: u64) -> Result<(), RunStop>
        ensures ok { OnOk result ((n : ℕ) → Shows self steps.old n → Shows self steps.new (n + count)) }
        ensures over { OnErr result ((n : ℕ) → Shows self steps.old n → IsOver self (n + count)) }
        ensures room { OnOk result (0 < count → self.bounded ≡ true → steps.new ≤ self.limit) }
        ensures stop { IfErr result (λ e. e ≡ OutOfSteps) }
    {
        let spent = *steps;
        if count <= self.limit.saturating_sub(spent) {
            *steps = spent + count;
            Ok(())
        } else if self.bounded {
            Err(RunStop::OutOfSteps)
        } else {
            *steps = spent.max(self.limit);
            Ok(())
        }
    }

    /// Whether so many steps are more than a run may take.
    pub fn is_over(self, steps: u64) -> bool
        ensures over { result ≡ self.bounded && nat_lt self.limit steps }
        ensures word { steps < 2 ^ 64 }
    {
        self.bounded && self.limit < steps
    }
}
