//! The theorem that starting tables cover a realm's address space, for all IPA widths.
ghost use Rattle.std.specs.Prelude.{ℕ};
ghost use Rattle.granule_addr.specs.Root.{ServesSpace};

/// Proves that a realm's starting tables cover exactly the IPA granules of its address space.
pub fn starting_tables_serve_the_space()
    ensures { (width : ℕ) → ServesSpace width }
{}
