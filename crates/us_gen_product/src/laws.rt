//! The laws.
ghost use Rattle.us_gen_product.specs.Rooms.{ProductIsTyped};
ghost use Rattle.us_gen_product.specs.Runs.{ProductsAdd};

/// The phase is typed in every context with room.
pub fn product_is_typed()
    ensures { ProductIsTyped }
{}

/// On the buffers of lawful parts and an operand the phase fills the result with the sums over the entries of all parts,
/// modulo 2^64.
pub fn products_add()
    ensures { ProductsAdd }
{}
