ghost use Rattle.cg_like.specs.Likelihood.{WeightsEnclose};

/// The law that the row of a dating that can be weighed encloses every list of admitted weights, and that there are
/// some. Does nothing.
pub fn weights_enclose()
    ensures { WeightsEnclose }
{}
