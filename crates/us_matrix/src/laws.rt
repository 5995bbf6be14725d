// Laws of matrices.
ghost use Rattle.us_matrix.specs.Laws.{OneMatrix, ValuesAreSums};

/// Two matrices of one shape with the same values are one matrix.
pub fn one_matrix()
    ensures { OneMatrix }
{}

/// What triples make is a matrix, whose value at each coordinate is the sum of the values there modulo 2^64.
pub fn values_are_sums()
    ensures { ValuesAreSums }
{}
