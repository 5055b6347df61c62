//! What holds of all sessions. The functions do nothing.
ghost use Rattle.clients.specs.Laws.{FirstHasNone, OutputsAreLawful};

use nbd_session::feeds_are_lawful;

/// Before a session began there are no histories; and what each session with its history put out, or has waiting, is lawful for what
/// was fed to it and for the replies to it.
pub fn sessions_are_lawful()
    ensures first { FirstHasNone }
    ensures lawful { OutputsAreLawful }
{
    feeds_are_lawful();
}
