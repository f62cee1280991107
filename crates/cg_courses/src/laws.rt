ghost use Rattle.cg_courses.specs.Interleaving.{EachRunsToItsEnd, TurnsDecide, EntriesAreOfSessions};
ghost use Rattle.cg_courses.specs.Taken.{PrintsAreWalked, ClaimsAreClosed};

/// The law that whatever turns the sessions take, the journal is legal, and each session runs to its end in a course of
/// its own script. Does nothing.
pub fn each_session_runs_to_its_end()
    ensures { EachRunsToItsEnd }
{}

/// The law that the turns decide the journal and where each session ends, where want of memory stops none. Does nothing.
pub fn turns_decide()
    ensures { TurnsDecide }
{}

/// The law that each entry of the journal is of one of the sessions, whichever of them want of memory stops. Does nothing.
pub fn entries_are_of_sessions()
    ensures { EntriesAreOfSessions }
{}

/// The law that the messages of each print that a session finishes are got by a walk: what is ready is taken whole, and
/// what is claimed is published by the seat that made it. Does nothing.
pub fn prints_are_walked()
    ensures { PrintsAreWalked }
{}

/// The law that no claim is left once all sessions have run to their ends, whichever of them want of memory stops. Does
/// nothing.
pub fn claims_are_closed()
    ensures { ClaimsAreClosed }
{}
