//! Laws of runs. Each function does nothing: its contract is the law.
ghost use Rattle.isolate.specs.RunLaws.{EachEndHasAFile, EntriesAddWhatIsSeen, FilesAreTheirSessions, SamplesHaveTheSourceInterval};

/// Each entry of a schedule adds what is seen of it, after the deoptimisations since the entry
/// before it. A sample is seen with the source interval of the sessions that run at its place.
pub fn entries_add_what_is_seen()
    ensures entries { EntriesAddWhatIsSeen }
    ensures interval { SamplesHaveTheSourceInterval }
{}

/// In a legal schedule each session that is stopped, or that the end finishes with files, has its file,
/// and no other session has one; the files are in the order in which their sessions end.
pub fn each_session_that_ends_has_its_file()
    ensures sessions { EachEndHasAFile }
    ensures texts { FilesAreTheirSessions }
{}
