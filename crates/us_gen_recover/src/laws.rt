//! The laws.
ghost use Rattle.us_gen_recover.specs.Ranges.{RangesReach, WalkedValuesFit};
ghost use Rattle.us_gen_recover.specs.Rooms.{RecoveryFits};
ghost use Rattle.us_gen_recover.specs.Values.{RecoveryGives};

/// The code of a plan's steps is typed around a block that is typed where its registers are visible.
pub fn recovery_fits()
    ensures { RecoveryFits }
{}

/// Inside the code of a plan's steps each step's term has the step's value.
pub fn recovery_gives()
    ensures { RecoveryGives }
{}

/// The values of a walk lie in the ranges of their expressions, and fit 64 bits.
pub fn walked_values_fit()
    ensures { WalkedValuesFit }
{}

/// Ranks, lanes and slots in their ranges are places of tables that are long enough.
pub fn ranges_reach()
    ensures { RangesReach }
{}
