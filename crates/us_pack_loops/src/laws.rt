//! The laws.
ghost use Rattle.us_pack_loops.specs.Laws.{PackedNeedsAreMet, PackedBlocksBuildParts};

/// Where the turns take rows that are ready, and the packs of the loop stand for packs of the format behind its levels, the
/// packs have what they need of the entries.
pub fn packed_needs_are_met()
    ensures { PackedNeedsAreMet }
{}

/// Of a lawful part, whose entries the turns take in any sorted order, the block builds the part's buffers, packs included,
/// in steps that are linear in its entries and its buffers.
pub fn packed_blocks_build_parts()
    ensures { PackedBlocksBuildParts }
{}
