ghost use Rattle.cg_files.specs.Reading.{FilesHaveOneEnd};

/// The law that where a shelf tells its files, reads of any of them have one fault at most, and none where all are
/// accepted. Does nothing.
pub fn files_have_one_end()
    ensures { FilesHaveOneEnd }
{}
