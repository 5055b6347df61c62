//! The steps of a world, as a list holds them.
ghost use Rattle.std.specs.Prelude.{◌≡◌, ◌<◌, length};
ghost use Rattle.clients.specs.Clients.{no_one};
ghost use Rattle.life.specs.Does.{Acts, BeginsSome, Does, IsConnected, IsEnded, IsFed, IsHandedOut, IsSilent, IsTicked, TellsDone};
ghost use Rattle.life.specs.Played.{fed_by_step, fed_to, handed_by_step, handed_from, handed_of, told_in, tried_in, went_in};
ghost use Rattle.world.specs.World.{IsOfOneVolume};

use crate::answer::{Answer, MEMORY};
use crate::step::{Act, Step};
use chain_core::Refusal;
use flush_barrier::SessionId;
use local_store::NeverLends;
use std::alloc::Global;
use world::{Told, World};

/// Plays one step: the call of the world that it names. Where there is no member at its place, no such session, or no such step now,
/// it is skipped, and nothing changed.
pub fn play<S: NeverLends + Drop>(alloc: Global, world: &mut World<S>, step: &Step) -> Answer
    ensures does { Does S.keeps_model S.about S.keeps S.is_pending S.may_leave_now S.moment S.may_have_left_since S.failures step.now result world.old world.new }
    ensures one_volume { S.keeps_model → IsOfOneVolume S.about S.keeps S.may_leave_now (fed_by_step step.now result) (handed_by_step step.now result) world.old world.new }
{
    match step {
        Step::Connect { session, at } => connect(alloc, world, *session, *at),
        Step::Bytes { session, piece } => feed(alloc, world, *session, piece),
        Step::End { session } => end(alloc, world, *session),
        Step::HandOut { session } => hand_out(world, *session),
        Step::Member { at, act } => {
            if *at < world.len() {
                play_at(alloc, world, *at, *act)
            } else {
                Answer::Skipped
            }
        }
    }
}

/// A client begins its session.
fn connect<S: NeverLends + Drop>(
    alloc: Global,
    world: &mut World<S>,
    session: SessionId,
    at: usize,
) -> Answer
    ensures does { IsConnected session at result world.old world.new }
    ensures one_volume { IsOfOneVolume S.about S.keeps S.may_leave_now no_one (handed_of result) world.old world.new }
{
    if at >= world.len() {
        return Answer::Skipped;
    }
    match world.connect(session, at) {
        Ok(true) => silent(alloc),
        Ok(false) => Answer::Skipped,
        Err(_) => Answer::Refused(MEMORY),
    }
}

/// The client sends a piece.
fn feed<S: NeverLends + Drop>(
    alloc: Global,
    world: &mut World<S>,
    session: SessionId,
    piece: &[u8],
) -> Answer
    ensures does { IsFed session piece.now result world.old world.new }
    ensures one_volume { IsOfOneVolume S.about S.keeps S.may_leave_now (fed_to session piece.now result) (handed_of result) world.old world.new }
{
    let Some(fed) = world.feed(session, piece) else {
        return Answer::Skipped;
    };
    match fed {
        Ok(()) => silent(alloc),
        Err(refusal) => Answer::Refused(refusal.number()),
    }
}

/// The client's input ends.
fn end<S: NeverLends + Drop>(alloc: Global, world: &mut World<S>, session: SessionId) -> Answer
    ensures does { IsEnded session result world.old world.new }
    ensures one_volume { IsOfOneVolume S.about S.keeps S.may_leave_now no_one (handed_of result) world.old world.new }
{
    done(alloc, world.end(session))
}

/// What waits for the client goes out.
fn hand_out<S: NeverLends + Drop>(world: &mut World<S>, session: SessionId) -> Answer
    ensures does { IsHandedOut session result world.old world.new }
    ensures one_volume { IsOfOneVolume S.about S.keeps S.may_leave_now no_one (handed_from session result) world.old world.new }
{
    match world.hand_out(session) {
        Some(output) => Answer::HandedOut(output),
        None => Answer::Skipped,
    }
}

/// The member at a place acts.
fn play_at<S: NeverLends + Drop>(alloc: Global, world: &mut World<S>, at: usize, act: Act) -> Answer
    requires { at < length world.old.chain.members }
    ensures does { Acts S.keeps_model S.about S.keeps S.is_pending S.may_leave_now S.moment S.may_have_left_since S.failures act at result world.old world.new }
    ensures one_volume { S.keeps_model → IsOfOneVolume S.about S.keeps S.may_leave_now no_one (handed_of result) world.old world.new }
{
    match act {
        Act::Take => told(world.take(at)),
        Act::Number { from } => tried(world.number(from, at)),
        Act::Pass { from } => tried(world.pass(from, at)),
        Act::Look => done(alloc, world.look(at)),
        Act::AnswerFront => told(world.answer_front(at)),
        Act::Raise => done(alloc, world.raise(at)),
        Act::Raised => told(world.raised(at)),
        Act::FindFront => done(alloc, world.find_front(at)),
        Act::Crew => done(alloc, world.crew(at)),
        Act::Gauge => done(alloc, world.gauge(at)),
        Act::Settle => told(world.settle(at)),
        Act::BeginCommits { most } => begin_commits(world, at, most),
        Act::EndCommit => told(world.end_commit(at)),
        Act::Post => done(alloc, world.post(at)),
        Act::Tick => tick(world, at),
        Act::Checkpoint => went(world.checkpoint(at)),
        Act::Stop => told(world.stop(at)),
    }
}

/// It begins a commit of at most so many writes.
fn begin_commits<S: NeverLends + Drop>(world: &mut World<S>, at: usize, most: u64) -> Answer
    requires { at < length world.old.chain.members }
    ensures does { BeginsSome S.keeps_model S.about S.keeps S.is_pending S.may_leave_now S.moment S.may_have_left_since S.failures at most result world.old world.new }
    ensures one_volume { S.keeps_model → IsOfOneVolume S.about S.keeps S.may_leave_now no_one (handed_of result) world.old world.new }
{
    if most == 0 {
        return Answer::Skipped;
    }
    tried(world.begin_commits(at, most))
}

/// Its store writes a block home.
fn tick<S: NeverLends + Drop>(world: &mut World<S>, at: usize) -> Answer
    requires { at < length world.old.chain.members }
    ensures does { IsTicked S.keeps_model S.about S.keeps S.is_pending S.may_leave_now S.moment S.may_have_left_since S.failures at result world.old world.new }
    ensures one_volume { S.keeps_model → IsOfOneVolume S.about S.keeps S.may_leave_now no_one (handed_of result) world.old world.new }
{
    match world.tick(at) {
        Ok((told, _)) => Answer::Taken(told),
        Err(refusal) => Answer::Refused(refusal.number()),
    }
}

/// A step that tells clients something, where it is taken.
pub(crate) fn told(told: Option<Told>) -> Answer
    ensures { result ≡ told_in told }
{
    match told {
        Some(told) => Answer::Taken(told),
        None => Answer::Skipped,
    }
}

/// One that may be refused, too.
fn tried(tried: Result<Option<Told>, Refusal>) -> Answer
    ensures { result ≡ tried_in tried }
{
    match tried {
        Ok(given) => told(given),
        Err(refusal) => Answer::Refused(refusal.number()),
    }
}

/// One that is taken or refused.
fn went(went: Result<Told, Refusal>) -> Answer
    ensures { result ≡ went_in went }
{
    match went {
        Ok(told) => Answer::Taken(told),
        Err(refusal) => Answer::Refused(refusal.number()),
    }
}

/// One that tells nobody anything.
pub(crate) fn done(alloc: Global, taken: bool) -> Answer
    ensures { TellsDone taken result }
{
    if taken {
        silent(alloc)
    } else {
        Answer::Skipped
    }
}

/// It was taken, and told nobody anything.
pub(crate) fn silent(alloc: Global) -> Answer
    ensures { IsSilent result }
{
    Answer::Taken(Told::Out(Vec::new(alloc)))
}
