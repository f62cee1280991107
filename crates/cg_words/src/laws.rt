ghost use Rattle.cg_words.specs.Words.{AskForOneThing};

/// The law that words ask for one thing at most. Does nothing.
pub fn words_ask_for_one_thing()
    ensures { AskForOneThing }
{}
