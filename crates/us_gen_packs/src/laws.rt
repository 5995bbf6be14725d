//! The laws.
ghost use Rattle.us_gen_packs.specs.Blocks.{PackedBlocksBuild};
ghost use Rattle.us_gen_packs.specs.Kinds.{PackedBlocksTyped};
ghost use Rattle.us_gen_packs.specs.Making.{PackMakesTyped, PacksAreZero};
ghost use Rattle.us_gen_packs.specs.Turns.{PacksTakeEntries};

/// The packs take the entry of each turn: each sets the cells of its columns at the entry's position, at a stated cost.
pub fn packs_take_entries()
    ensures { PacksTakeEntries }
{}

/// From buffers of zeros the block builds those of its levels and of its packs, at a stated cost.
pub fn packed_blocks_build()
    ensures { PackedBlocksBuild }
{}

/// The block keeps the rules where no register of its own is visible.
pub fn packed_blocks_typed()
    ensures { PackedBlocksTyped }
{}

/// The new buffers of the packs hold zeros.
pub fn packs_are_zero()
    ensures { PacksAreZero }
{}

/// The `new` lines of the packs keep the rules.
pub fn pack_makes_typed()
    ensures { PackMakesTyped }
{}
