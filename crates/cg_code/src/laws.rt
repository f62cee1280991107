ghost use Rattle.cg_code.specs.Laws.{EqualCodes};

/// The law that of evaluations within the limits of a model two codes are equal exactly where the kinds, the grids, the
/// curves' numbers and the contents are, names aside. Does nothing.
pub fn equal_codes_have_equal_contents()
    ensures { EqualCodes }
{}
