//! The laws.
ghost use Rattle.us_gen_listing.specs.Unpack.{FormatIsListed, FormatIsTyped};

/// On the buffers of a format for any matrix whose size is within the limit the phases fill the columns with the
/// matrix's entries, part by part and by position, in at most 64 · (1 + levels + queries) · (size + 1) steps.
pub fn format_is_listed()
    ensures { FormatIsListed }
{}

/// The phases are typed behind any code with as many sources as the format has buffers, whose registers, buffers and dims
/// have numbers below theirs, and behind them the columns are words, as many as the dim.
pub fn format_is_typed()
    ensures { FormatIsTyped }
{}
