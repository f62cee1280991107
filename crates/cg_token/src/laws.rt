ghost use Rattle.cg_token.specs.Tokens.{EachIsCutOnce};
ghost use Rattle.cg_token.specs.Lexing.{PiecesStandByThemselves};

/// The law that bytes are cut into pieces in one way. Does nothing.
pub fn each_file_is_cut_once()
    ensures { EachIsCutOnce }
{}

/// The law that texts which are read as tokens join one another, and that a word before another byte and a text in its
/// quotes are read so wherever they stand. Does nothing.
pub fn pieces_stand_by_themselves()
    ensures { PiecesStandByThemselves }
{}
