//! What the threads of sessions ask of.
ghost use Rattle.std.specs.Prelude.{◌≡◌, All, Some};
ghost use Rattle.export.specs.Volume.{HasTaken, IsForVolume};

use board::Board;
use flush_barrier::Reply;
use gate_journal::Slot as Place;
use mail::MailRoom;
use nbd_session::Demand;
use std::sync::Wait;

/// The volume of a chain, as the threads of sessions see it.
pub trait Volume {
    ghost use Rattle.std.specs.Prelude.{ℕ, Option};
    ghost use Rattle.board.specs.Seats.{BoardId};

    /// The board of its chain.
    ghost board: { Option BoardId };

    /// How many bytes it has.
    ghost size: { ℕ };

    /// Takes demands at a member, from the list's end on: all, or some until others have their turn there, or until one is refused. Their
    /// replies come by the session's mailbox; `Some` is the reply that refuses the one that was taken last: with 12 where there is no memory
    /// for it, else with 5.
    fn send<R: Wait>(&self, rt: &R, place: Place, demands: &mut Vec<Demand>) -> Option<Reply>
        requires { All (IsForVolume board size) demands.old.items }
        ensures { HasTaken demands.old.items demands.new.items result };

    /// The member at which the n-th session is, counted from 0: those that run now take turns. Any slot, where none runs.
    fn member<R: Wait>(&self, rt: &R, n: u64) -> Place;

    /// The mail of its sessions.
    fn mail(&self) -> &MailRoom;

    /// Its board.
    fn board(&self) -> &Board
        ensures { board ≡ Some result.now };

    /// How many bytes it has.
    fn size(&self) -> u64
        ensures { result ≡ size };
}
