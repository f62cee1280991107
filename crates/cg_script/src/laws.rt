ghost use Rattle.cg_script.specs.Script.{EachIsDecided};

/// The law that each list of bytes either is exactly one script or has exactly one fault. Does nothing.
pub fn each_script_is_decided()
    ensures { EachIsDecided }
{}
