//! Laws of the machine's runs, for callers that argue about them. The functions do nothing.

ghost use Rattle.world_model.specs.Laws.{FlushesOwe, LastIsAnswered, LastIsLast, MarkedWritesAreRead, NamesFind, NothingIsLost, OwedStays, ReadsAreFresh, RunsGoOn, RunsKeepSound, ShownGoesOn, StartIsSound, StepsKeepSound};

/// A run that goes on is a run, and shows what its parts show.
pub fn runs_go_on()
    ensures runs { RunsGoOn }
    ensures shown { ShownGoesOn }
{}

/// Names are unique and lead to their requests, each write is taken once at most, and nothing is owed that wasn't taken.
pub fn runs_keep_sound()
    ensures start { StartIsSound }
    ensures step { StepsKeepSound }
    ensures run { RunsKeepSound }
    ensures found { NamesFind }
{}

/// A READ finds each write that was taken when it was sent.
pub fn reads_are_fresh()
    ensures marked { MarkedWritesAreRead }
    ensures fresh { ReadsAreFresh }
{}

/// An answered FLUSH owes each write that was answered when it was sent.
pub fn flushes_owe()
    ensures last { LastIsLast }
    ensures answered { LastIsAnswered }
    ensures owed { FlushesOwe }
{}

/// Without a restart no write that was taken is lost.
pub fn nothing_is_lost()
    ensures { NothingIsLost }
{}

/// What is owed is never lost.
pub fn owed_stays()
    ensures { OwedStays }
{}
