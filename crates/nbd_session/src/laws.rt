//! Laws of sessions, for callers that argue about whole texts. The functions do nothing.

ghost use Rattle.nbd_session.specs.Laws.{CuttingsAgree, FeedsInOneWay, FeedsLawfully, FeedsTakeAll, HistoriesAreLawful, NeedyGoOn, OutputIsLawful, RepliesAreLawful};

use nbd_codec::{client_flags_are_apart, options_are_apart, requests_are_apart};

/// It makes no difference in which pieces a text came.
pub fn cuttings_agree()
    ensures one_way { FeedsInOneWay }
    ensures cuttings { CuttingsAgree }
{
    client_flags_are_apart();
    options_are_apart();
    requests_are_apart();
}

/// What goes out is lawful for what came in, piece by piece, and of each piece all is taken that is whole.
pub fn feeds_are_lawful()
    ensures lawful { HistoriesAreLawful }
    ensures feeds { FeedsLawfully }
    ensures replies { RepliesAreLawful }
    ensures output { OutputIsLawful }
    ensures all { FeedsTakeAll }
    ensures needy { NeedyGoOn }
{
    client_flags_are_apart();
    options_are_apart();
    requests_are_apart();
}
