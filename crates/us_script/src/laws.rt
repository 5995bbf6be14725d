// Laws of scripts.
ghost use Rattle.us_script.specs.Laws.{TextReads};

/// The text of at most 1048576 sets that lie in a shape is read for this shape as these sets.
pub fn texts_read_back()
    ensures { TextReads }
{}
