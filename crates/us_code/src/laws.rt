//! Laws of the definitions, each on a function without code.
ghost use Rattle.us_code.specs.Laws.{SampleRuns};

/// What a program that copies three buffers gives and costs, and what changes of it do.
pub fn sample_runs()
    ensures { SampleRuns }
{}
