//! A member is asked what a demand asks.
ghost use Rattle.std.specs.Prelude.{◌≡◌, ◌<◌, [], length, IfErr, IfNone, IfOk, IfSome, None};
ghost use Rattle.chain.specs.Asking.{HasPleaAt, IsUnnumbered, TakesOfOneVolume, asked_by};
ghost use Rattle.chain_steps.specs.Waiting.{board_of};
ghost use Rattle.volume.specs.Writes.{Fits};
ghost use Rattle.chain.specs.Chain.{IsOfOneVolume, bytes_of};
ghost use Rattle.chain.specs.Commits.{LeavesAt};
ghost use Rattle.clients.specs.Clients.{held_of};
ghost use Rattle.nbd_session.specs.Demand.{owed_by};
ghost use Rattle.chain_core.specs.declared.refusal.Refusal.{Refusal as Why};
ghost use Rattle.world.specs.Taking.{HasRefused, HasRefusedWrite, HasTaken, HasTakenWrite, code_of, owed_of, refusing};
ghost use Rattle.world.specs.World.{IsOfVolume};

use chain::Chain;
use chain_core::{Refusal, Refused, Served};
use chain_steps::WriteToken;
use flush_barrier::{ErrorCode, Reply};
use local_store::StoreLike;
use nbd_session::Demand;
use std::alloc::Global;
use volume::Write;

/// With which error a client is told that a member refused its demand: 12 where memory ran out, else 5.
fn code_of(refusal: Refusal) -> ErrorCode
    ensures { result ≡ code_of refusal }
{
    match refusal {
        Refusal::Memory => ErrorCode::NoMemory,
        Refusal::Full | Refusal::NotMember | Refusal::Early | Refusal::Busy | Refusal::Stopped =>
            ErrorCode::Io,
    }
}

/// What a member answered to a demand.
#[derive(Drop)]
pub(crate) struct Taken {
    /// The replies that it gave.
    pub(crate) replies: Vec<Served>,
    /// The demand's own, where it was refused.
    pub(crate) refused: Option<Reply>,
}

/// It took the demand, and gave these replies.
fn took(replies: Vec<Served>) -> Taken
    ensures { result ≡ record { replies = replies; refused = None } }
{
    Taken {
        replies,
        refused: None,
    }
}

/// The member at a place takes a write, or refuses it.
fn ask_write<S: StoreLike + Drop>(
    alloc: Global,
    chain: &mut Chain<S>,
    at: usize,
    token: WriteToken,
    write: Write,
) -> Taken
    requires at { at < length chain.old.members }
    requires of_board { board_of token ≡ chain.old.id }
    requires unnumbered { IsUnnumbered token }
    requires inside { Fits (bytes_of chain.old) write }
    requires some { 0 < length write.bytes }
    ensures taken { IfNone result.refused (HasTakenWrite at token write result.replies.items chain.old chain.new) }
    ensures refused { IfSome result.refused (λ reply. (refusal : Why) × (HasRefusedWrite at result.replies.items refusal chain.old chain.new × HasPleaAt at chain.new refusal × (reply ≡ refusing (owed_of token) refusal))) }
    ensures takes { S.keeps_model → IfNone result.refused (TakesOfOneVolume S.about S.keeps S.may_leave_now at (asked_by token write) chain.old chain.new result.replies.items) }
    ensures any_moment { S.keeps_model → LeavesAt S.about S.keeps S.may_leave_now S.moment S.may_have_left_since at chain.old chain.new }
    ensures one_volume { S.keeps_model → IfSome result.refused (λ reply. IsOfOneVolume S.about S.keeps S.may_leave_now chain.old chain.new result.replies.items) }
{
    match chain.submit(at, token, write) {
        Ok(()) => Taken {
            replies: Vec::new(alloc),
            refused: None,
        },
        Err(
            Refused {
                token,
                refusal,
                replies,
            },
        ) => Taken {
            replies,
            refused: Some(token.refuse(alloc, code_of(refusal))),
        },
    }
}

/// The member at a place takes a demand, or refuses it.
pub(crate) fn ask<S: StoreLike + Drop>(
    alloc: Global,
    chain: &mut Chain<S>,
    at: usize,
    demand: Demand,
) -> Taken
    requires at { at < length chain.old.members }
    requires of_volume { IsOfVolume chain.old.id (bytes_of chain.old) demand }
    ensures taken { IfNone result.refused (HasTaken S.keeps_model S.about S.keeps S.moment S.may_have_left_since at demand result.replies.items chain.old chain.new) }
    ensures refused { IfSome result.refused (λ reply. (refusal : Why) × (HasRefused S.keeps_model S.about S.failures S.keeps S.moment S.may_have_left_since at demand result.replies.items refusal chain.old chain.new
        × HasPleaAt at chain.new refusal × (reply ≡ refusing (owed_by demand) refusal))) }
    ensures takes { S.keeps_model → IfNone result.refused (TakesOfOneVolume S.about S.keeps S.may_leave_now at (held_of demand) chain.old chain.new result.replies.items) }
    ensures any_moment { S.keeps_model → LeavesAt S.about S.keeps S.may_leave_now S.moment S.may_have_left_since at chain.old chain.new }
    ensures one_volume { S.keeps_model → IfSome result.refused (λ reply. IsOfOneVolume S.about S.keeps S.may_leave_now chain.old chain.new result.replies.items) }
{
    match demand {
        Demand::Read {
            token,
            offset,
            length,
        } => match chain.read(at, token, offset, length) {
            Ok(replies) => took(replies),
            Err(
                Refused {
                    token,
                    refusal,
                    replies,
                },
            ) => Taken {
                replies,
                refused: Some(token.refuse(alloc, code_of(refusal))),
            },
        },
        Demand::Write { token, write } => {
            ask_write(alloc, chain, at, WriteToken::Plain(token), write)
        }
        Demand::Fua { token, write } => ask_write(alloc, chain, at, WriteToken::Fua(token), write),
        Demand::Flush { token } => match chain.flush(at, token) {
            Ok(()) => Taken {
                replies: Vec::new(alloc),
                refused: None,
            },
            Err(
                Refused {
                    token,
                    refusal,
                    replies,
                },
            ) => Taken {
                replies,
                refused: Some(token.refuse(alloc, code_of(refusal))),
            },
        },
    }
}
