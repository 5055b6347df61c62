//! What clients ask.
ghost use Rattle.std.specs.Prelude.{◌≡◌, ◌<◌, ◌≤◌, ◌+◌, All, Some, IfErr, IfSome, length};
ghost use Rattle.volume.specs.Writes.{Fits};
ghost use Rattle.chain_steps.specs.Waiting.{board_of, debt_of, waits_for};
ghost use Rattle.nbd_session.specs.Demand.{owed_by};
ghost use Rattle.export.specs.Volume.{HasTaken, IsForVolume, IsRefusalOf};
ghost use Rattle.cluster.specs.Refusal.{code_of};

use crate::cluster::Cluster;
use crate::pause::Pause;
use crate::seated::Seated;
use crate::slot::Slot;
use chain_core::Refusal;
use chain_steps::WriteToken;
use disk_model::HalvedDisk;
use flush_barrier::{ErrorCode, OwedFlush, OwedRead, Reply};
use gate_journal::Slot as Place;
use mail::Given;
use member::Agreed;
use nbd_session::Demand;
use std::alloc::Global;
use std::sync::Wait;
use volume::Write;

/// Once so many bytes of READs were answered under a member's lock, others have their turn.
const TURN: u64 = 262_144;

impl<D: HalvedDisk + Drop, J: Agreed> Cluster<D, J> {
    /// Takes demands at a member, from the list's end on, under one lock: all, or READs of so many bytes and no more, or until one is
    /// refused. A READ is answered before the call ends, as far as no write of its blocks is under way; other replies come later. It carries
    /// what the member sends by it, and pauses at the points of that.
    pub fn take_pausing<R: Wait, P: Pause>(
        &self,
        rt: &R,
        place: Place,
        demands: &mut Vec<Demand>,
        pause: &P,
    ) -> Option<Reply>
        requires { All (IsForVolume J.board J.size) demands.old.items }
        ensures { HasTaken demands.old.items demands.new.items result }
    {
        let mut given = Given::new(self.alloc);
        let mut wrote = false;
        let refused = self.take_under(rt, place, &mut given, demands, &mut wrote);
        self.mail.post(rt, given);
        if wrote {
            self.carry(rt, place, pause);
        }
        refused
    }

    fn take_under<R: Wait>(
        &self,
        rt: &R,
        place: Place,
        given: &mut Given,
        demands: &mut Vec<Demand>,
        wrote: &mut bool,
    ) -> Option<Reply>
        requires { All (IsForVolume J.board J.size) demands.old.items }
        ensures { HasTaken demands.old.items demands.new.items result }
    {
        let slot = self.at(place);
        match &mut *slot.seated.lock(rt) {
            Some(seated) => {
                let refused = self.take_some(rt, slot, seated, given, demands, wrote);
                if seated.member().due().commit {
                    slot.bell.ring(rt);
                }
                refused
            }
            None => match demands.pop() {
                Some(demand) => Some(refuse(self.alloc, demand, Refusal::NotMember)),
                None => None,
            },
        }
    }

    /// Takes them at the member that sits there.
    fn take_some<R: Wait>(
        &self,
        rt: &R,
        slot: &Slot<D, J>,
        seated: &mut Seated<D, J>,
        given: &mut Given,
        demands: &mut Vec<Demand>,
        wrote: &mut bool,
    ) -> Option<Reply>
        requires { All (IsForVolume J.board J.size) demands.old.items }
        ensures { HasTaken demands.old.items demands.new.items result }
    {
        let mut read = 0u64;
        while let Some(demand) = demands.pop() {
            match &demand {
                Demand::Read { length, .. } => read = read.saturating_add(u64::from(*length)),
                Demand::Write { .. } | Demand::Fua { .. } => *wrote = true,
                Demand::Flush { .. } => {}
            }
            let refused = self.take_one(rt, slot, seated, given, demand);
            if refused.is_some() || read >= TURN {
                return refused;
            }
        }
        None
    }

    /// Takes a demand, and pays what waits for a floor. `Some` is the reply that refuses it at once, with 12 where there is no memory for it,
    /// else with 5.
    fn take_one<R: Wait>(
        &self,
        rt: &R,
        slot: &Slot<D, J>,
        seated: &mut Seated<D, J>,
        given: &mut Given,
        demand: Demand,
    ) -> Option<Reply>
        requires { IsForVolume J.board J.size demand }
        ensures { IfSome result (IsRefusalOf (owed_by demand)) }
    {
        if !given.make_room(3) {
            return Some(refuse(self.alloc, demand, Refusal::Memory));
        }
        match demand {
            Demand::Read {
                token,
                offset,
                length,
            } => self.read(rt, slot, seated, given, token, offset, length),
            Demand::Write { token, write } => {
                self.write(rt, slot, seated, given, WriteToken::Plain(token), write)
            }
            Demand::Fua { token, write } => {
                self.write(rt, slot, seated, given, WriteToken::Fua(token), write)
            }
            Demand::Flush { token } => self.flush(rt, slot, seated, given, token),
        }
    }

    fn write<R: Wait>(
        &self,
        rt: &R,
        slot: &Slot<D, J>,
        seated: &mut Seated<D, J>,
        given: &mut Given,
        token: WriteToken,
        write: Write,
    ) -> Option<Reply>
        requires room { 2 ≤ given.old.room }
        requires of_board { J.board ≡ Some (board_of token) }
        requires inside { Fits J.size write }
        requires some { 0 < length write.bytes }
        ensures { IfSome result (IsRefusalOf (debt_of (waits_for 0 0 token))) }
    {
        let taken = seated.write(self.alloc, given, token, write);
        self.settle_floor(rt, slot, seated, given);
        match taken {
            Ok(()) => None,
            Err((token, refusal)) => Some(token.refuse(self.alloc, code_of(refusal))),
        }
    }

    fn read<R: Wait>(
        &self,
        rt: &R,
        slot: &Slot<D, J>,
        seated: &mut Seated<D, J>,
        given: &mut Given,
        token: OwedRead,
        offset: u64,
        length: u32,
    ) -> Option<Reply>
        requires room { 3 ≤ given.old.room }
        requires some { 0 < length }
        requires within { offset + length ≤ J.size }
        requires of_board { J.board ≡ Some token.board }
        ensures { IfSome result (IsRefusalOf token) }
    {
        let taken = seated.read(self.alloc, given, &self.board, token, offset, length);
        self.settle_floor(rt, slot, seated, given);
        match taken {
            Ok(()) => None,
            Err((token, refusal)) => Some(token.refuse(self.alloc, code_of(refusal))),
        }
    }

    fn flush<R: Wait>(
        &self,
        rt: &R,
        slot: &Slot<D, J>,
        seated: &mut Seated<D, J>,
        given: &mut Given,
        token: OwedFlush,
    ) -> Option<Reply>
        requires room { 3 ≤ given.old.room }
        requires of_board { J.board ≡ Some token.board }
        ensures { IfSome result (IsRefusalOf (record { session = token.session; cookie = token.cookie; board = token.board })) }
    {
        let taken = seated.flush(self.alloc, given, &self.board, token);
        self.settle_floor(rt, slot, seated, given);
        match taken {
            Ok(()) => None,
            Err((token, refusal)) => Some(token.refuse(self.alloc, code_of(refusal))),
        }
    }
}

/// The reply to a demand that no member took.
fn refuse(alloc: Global, demand: Demand, why: Refusal) -> Reply
    ensures { IsRefusalOf (owed_by demand) result }
{
    match demand {
        Demand::Read {
            token,
            offset: _,
            length: _,
        } => token.refuse(alloc, code_of(why)),
        Demand::Write { token, write: _ } => {
            WriteToken::Plain(token).refuse(alloc, code_of(why))
        }
        Demand::Fua { token, write: _ } => WriteToken::Fua(token).refuse(alloc, code_of(why)),
        Demand::Flush { token } => token.refuse(alloc, code_of(why)),
    }
}

/// With what a request is refused that a member didn't take.
fn code_of(refusal: Refusal) -> ErrorCode
    ensures { result ≡ code_of refusal }
{
    match refusal {
        Refusal::Memory => ErrorCode::NoMemory,
        _ => ErrorCode::Io,
    }
}
