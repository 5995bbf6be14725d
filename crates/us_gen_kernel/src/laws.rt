//! The laws.
ghost use Rattle.us_gen_kernel.specs.Kernel.{FormatIsMultiplied, KernelIsTyped};

/// On the buffers of a format for any matrix whose size is within the limit, and an operand behind them, the phases fill
/// the result with the cells of the product, in at most 64 · (1 + levels + queries) · (size + entries · columns + 1) steps.
pub fn format_is_multiplied()
    ensures { FormatIsMultiplied }
{}

/// The phases are typed behind any code with as many sources as the format has buffers, and one more, whose registers,
/// buffers and dims have numbers below theirs, and behind them the result is visible.
pub fn kernel_is_typed()
    ensures { KernelIsTyped }
{}
