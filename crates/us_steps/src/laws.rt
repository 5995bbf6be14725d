//! The laws.
ghost use Rattle.us_steps.specs.Laws.{KernelsTakeFewSteps, ProgramsTakeFewSteps};

/// Between accepted formats, on a matrix with fewer than 2^31 rows and columns whose two sizes are within the limit of 67108864,
/// a right program takes fewer than 2^64 steps.
pub fn programs_take_few_steps()
    ensures { ProgramsTakeFewSteps }
{}

/// For an accepted format, on a matrix whose size is within the limit of 67108864, and where operand and product have at most
/// 33554432 cells, a right kernel takes fewer than 2^64 steps.
pub fn kernels_take_few_steps()
    ensures { KernelsTakeFewSteps }
{}
