//! Laws of the definitions, each on a function without code.
ghost use Rattle.us_format.specs.Laws.{MeaningIsMatrix, BuffersAreCounted, BuffersFit, BuffersMeanMatrix, OneMatrixByBuffers, PositionsAscend, KnownLaw, SizeAddsLengths, SizeIsOfBuffers, PackingKeepsSize, PlanRecovers};
ghost use Rattle.us_format.specs.Worked.{WorkedFormats, WorkedEmpty, WorkedLarge, WorkedKinds, WorkedKnown, WorkedFaults, RecoveryIsNotPruned};

/// The meaning of what the buffers of a lawful part hold for a matrix is the matrix.
pub fn meaning_is_matrix()
    ensures { MeaningIsMatrix }
{}

/// A lawful declaration has as many buffers as its parts say.
pub fn buffers_are_counted()
    ensures { BuffersAreCounted }
{}

/// Number and lengths of the buffers of a matrix fit, where each extent is at most the limit.
pub fn buffers_fit()
    ensures { BuffersFit }
{}

/// The entries that the buffers of a lawful declaration hold for a matrix are the matrix, in all its parts and packs. So
/// the matrix is the meaning of its buffers, where each extent is at most the limit.
pub fn buffers_mean_matrix()
    ensures { BuffersMeanMatrix }
{}

/// Two matrices of one shape that have the same buffers are one.
pub fn one_matrix_by_buffers()
    ensures { OneMatrixByBuffers }
{}

/// Two entries of a lawful part have different lists of coordinates, and the one with the lower list has the lower
/// last position.
pub fn positions_ascend()
    ensures { PositionsAscend }
{}

/// The known expressions are the least of a part's expressions that have the given levels and the constants and are
/// closed under the rules.
pub fn known_is_least()
    ensures { KnownLaw }
{}

/// The size is the lengths of all buffers and the numbers of positions, added up.
pub fn size_adds_lengths()
    ensures { SizeAddsLengths }
{}

/// The size that is read off the buffers of a matrix is its size.
pub fn size_is_of_buffers()
    ensures { SizeIsOfBuffers }
{}

/// Packing keeps the size: the buffers of the pieces are as long together as what they are packed into, and the size
/// of a declaration is that of its parts before packing.
pub fn packing_keeps_size()
    ensures { PackingKeepsSize }
{}

/// The steps up to the one with which both indices have values recover the same pair, and fail in the same cases.
pub fn plan_recovers()
    ensures { PlanRecovers }
{}

/// The worked rows hold: buffers, sizes, kinds, known indices, and buffers that do not fit or have no meaning.
pub fn worked_rows()
    ensures formats { WorkedFormats }
    ensures empty { WorkedEmpty }
    ensures large { WorkedLarge }
    ensures kinds { WorkedKinds }
    ensures known { WorkedKnown }
    ensures faults { WorkedFaults }
    ensures recovery { RecoveryIsNotPruned }
{}
