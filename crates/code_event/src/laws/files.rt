// Laws of files.
ghost use Rattle.code_event.specs.FileLaws.{EachEndHasAFile, FilesAreTheirSessions, FilesGrow, ItemsAddFiles, StoppedSessionsHaveFiles};

/// In a legal list of items each session that is stopped, or that a finish with files ends, has its
/// file, and no other session has one; the files are in the order in which their sessions end. The
/// same holds of whatever is seen, where sessions are only stopped while they run.
pub fn each_session_that_ends_has_its_file()
    ensures sessions { EachEndHasAFile }
    ensures seen { StoppedSessionsHaveFiles }
    ensures texts { FilesAreTheirSessions }
{}

/// An item that follows no finish leaves the files as they are, and adds those of exactly the
/// sessions that it ends: none, the one of a stop, or those that run at a finish with files. The
/// same holds of whatever is seen next.
pub fn each_item_adds_the_files_of_the_sessions_that_it_ends()
    ensures items { ItemsAddFiles }
    ensures seen { FilesGrow }
{}
