//! Replies come to their sessions.
ghost use Rattle.std.specs.Prelude.{◌≡◌, ◌++◌, ◌∷◌, ◌+◌, ◌<◌, ◌≤◌, ◌||◌, None, true, false, [], List, length, vec_capacity, vec_len};
ghost use Rattle.std.specs.Option.{option_to_list};
ghost use Rattle.world_model.specs.Event.{ClientEvent};
ghost use Rattle.world.specs.Telling.{AreTold, IsTold, Tells, TellsLoss, has_room, is_lost, outputs_of};
ghost use Rattle.clients.specs.declared.output.Output.{Output as Outgoing};

use crate::told::Told;
use chain_core::Served;
use clients::{Clients, Delivered, Output};
use flush_barrier::Reply;
use std::alloc::Global;

/// Whether a reply was lost, and its session has ended: memory ran out.
fn is_lost(delivered: Delivered) -> bool
    ensures { result ≡ is_lost delivered }
{
    match delivered {
        Delivered::ToSession | Delivered::Dropped => false,
        Delivered::OutOfMemory => true,
    }
}

/// Whether one of two is so.
fn either(one: bool, other: bool) -> bool
    ensures { result ≡ (one || other) }
{
    one || other
}

/// A reply comes to its session. Whether it was lost.
fn tell_one(clients: &mut Clients, reply: Reply) -> bool
    ensures { (events : List ClientEvent) × IsTold false result reply clients.old clients.new None events }
{
    is_lost(clients.reply(reply))
}

/// A reply comes to its session, and what waits there then goes out. Also whether the reply was lost.
fn tell_one_out(clients: &mut Clients, reply: Reply) -> (Option<Output>, bool)
    ensures { (events : List ClientEvent) × IsTold true result.1 reply clients.old clients.new result.0 events }
{
    let session = reply.session();
    let lost = is_lost(clients.reply(reply));
    (clients.put_out(session), lost)
}

/// What went out goes behind a list that has room for it.
fn keep(outputs: &mut Vec<Output>, given: Option<Output>)
    requires room { vec_len outputs.old < vec_capacity outputs.old }
    ensures kept { outputs.new.items ≡ outputs.old.items ++ option_to_list given }
    ensures len { vec_len outputs.new ≤ vec_len outputs.old + 1 }
    ensures capacity { vec_capacity outputs.new ≡ vec_capacity outputs.old }
{
    if let Some(output) = given {
        outputs.push_reserved(output);
    }
}

/// The replies come to their sessions, one after another. Whether some were lost.
fn tell_all(clients: &mut Clients, replies: Vec<Served>) -> bool
    ensures { (events : List ClientEvent) × AreTold false result replies.items clients.old clients.new [] events }
{
    let mut lost = false;
    for served in replies {
        let one = tell_one(clients, served.reply());
        lost = either(lost, one);
    }
    lost
}

/// The replies come to their sessions, one after another, and what waits there then goes out, into a list that has room for it. Whether
/// some were lost.
fn tell_all_out(clients: &mut Clients, replies: Vec<Served>, outputs: &mut Vec<Output>) -> bool
    requires room { vec_len outputs.old + length replies.items ≤ vec_capacity outputs.old }
    ensures told { (given : List Outgoing) × (events : List ClientEvent) × (AreTold true result replies.items clients.old clients.new given events × (outputs.new.items ≡ outputs.old.items ++ given)) }
    ensures len { vec_len outputs.new ≤ vec_len outputs.old + length replies.items }
    ensures capacity { vec_capacity outputs.new ≡ vec_capacity outputs.old }
{
    let mut lost = false;
    for served in replies {
        let (given, one) = tell_one_out(clients, served.reply());
        keep(outputs, given);
        lost = either(lost, one);
    }
    lost
}

/// What went out, and whether replies were lost.
fn told_with(outputs: Vec<Output>, lost: bool) -> Told
    ensures room { has_room result ≡ true }
    ensures outputs { outputs_of result ≡ outputs.items }
    ensures loss { TellsLoss result lost }
{
    if lost {
        Told::Lost(outputs)
    } else {
        Told::Out(outputs)
    }
}

/// The replies of a call come to their sessions, and what waits there then goes out.
pub(crate) fn tell(alloc: Global, clients: &mut Clients, replies: Vec<Served>) -> Told
    ensures { Tells result replies.items clients.old clients.new }
{
    let Ok(mut outputs) = Vec::with_capacity(alloc, replies.len()) else {
        tell_all(clients, replies);
        return Told::Withheld;
    };
    let lost = tell_all_out(clients, replies, &mut outputs);
    told_with(outputs, lost)
}

/// The same, with one more reply behind them.
fn tell_behind(alloc: Global, clients: &mut Clients, replies: Vec<Served>, last: Reply) -> Told
    ensures { Tells result (replies.items ++ last ∷ []) clients.old clients.new }
{
    let Ok(mut outputs) = Vec::with_capacity(alloc, replies.len() + 1) else {
        tell_all(clients, replies);
        tell_one(clients, last);
        return Told::Withheld;
    };
    let lost = tell_all_out(clients, replies, &mut outputs);
    let (given, one) = tell_one_out(clients, last);
    keep(&mut outputs, given);
    told_with(outputs, either(lost, one))
}

/// The same, with one more reply behind them, if there is one.
pub(crate) fn tell_with(
    alloc: Global,
    clients: &mut Clients,
    replies: Vec<Served>,
    last: Option<Reply>,
) -> Told
    ensures { Tells result (replies.items ++ option_to_list last) clients.old clients.new }
{
    match last {
        Some(reply) => tell_behind(alloc, clients, replies, reply),
        None => tell(alloc, clients, replies),
    }
}
