ghost use Rattle.cg_writing.specs.Law.{WrittenIsRead};

/// The law that the text of a model within its limits spells that model. Its names have at most 120 bytes of UTF-8,
/// without quotes and control characters; those of statements have no equals sign in front, and that of a curve ends in
/// `.14c`. Does nothing.
pub fn what_is_written_is_read()
    ensures { WrittenIsRead }
{}
