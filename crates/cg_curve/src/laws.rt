ghost use Rattle.cg_curve.specs.File.{EachIsDecided};

/// The law that each list of bytes either is a file of exactly one curve or has exactly one fault. Does nothing.
pub fn each_file_is_decided()
    ensures { EachIsDecided }
{}
