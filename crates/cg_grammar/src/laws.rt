ghost use Rattle.cg_grammar.specs.CurveLine.{EachHasOneCurveLine};
ghost use Rattle.cg_grammar.specs.Text.{EachIsDecided, EachStatementIsDecided, EachSpelledIsModel, EachStatementIsWithinLimits};

/// The law that each list of bytes spells one model, or fails at one place by one cause. What stands before that place
/// can be completed, and with the token at it nothing can. Does nothing.
pub fn each_file_is_decided()
    ensures { EachIsDecided }
{}

/// The same law for a statement that stands alone. Does nothing.
pub fn each_statement_is_decided()
    ensures { EachStatementIsDecided }
{}

/// The law that what a file spells is within the limits of a model, in place and in range. Does nothing.
pub fn each_spelled_chronology_is_a_model()
    ensures { EachSpelledIsModel }
{}

/// The law that a statement which stands alone is within the limits of a model, in place and in range. Does nothing.
pub fn each_spelled_statement_is_within_limits()
    ensures { EachStatementIsWithinLimits }
{}

/// The law that a file names its curve on one line or on none, and that the name there is that of the curve of the
/// chronology which it spells. Does nothing.
pub fn each_file_has_one_curve_line()
    ensures { EachHasOneCurveLine }
{}
