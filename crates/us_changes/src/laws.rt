// Laws of scripts and of their inverses.
ghost use Rattle.us_changes.specs.Laws.{InverseTakesBack};

/// Behind a script and behind its inverse a matrix is what it was.
pub fn inverse_takes_back()
    ensures { InverseTakesBack }
{}
