// Members in a row, over stores in memory; messages are handed over by hand.
ghost use Rattle.std.specs.Prelude.{◌≡◌, IsTrue};
ghost use Rattle.chain_core.specs.Node.{IsInside, size_of};
ghost use Rattle.chain_steps.specs.Waiting.{board_of};

use crate::comparing::same;
use board::{Board, Floor, Seat};
use bytes::Bytes;
use chain_core::{Node, Out, Refusal, Refused, Served};
use chain_steps::{Message, Sent, WriteToken};
use configurations::{Epoch, Incarnation, Member, Record};
use flush_barrier::{BoardName, ErrorCode, OwedFlush, OwedFua, OwedRead, OwedWrite, SessionId};
use flusher::Run;
use gate_journal::{Slot, Synced};
use local_store::{PlainStore, StoreLike};
use std::alloc::Global;
use std::process::Abort;
use volume::{Geometry, Write};

// A chain of the slots from 0 on, so many.
fn chain(rt: &impl Abort, alloc: Global, count: u8) -> Record {
    chain_in(rt, alloc, 1, 0, count)
}

// The chain of an epoch, of the slots from this one on and below that one.
fn chain_in(rt: &impl Abort, alloc: Global, epoch: u64, first: u8, end: u8) -> Record {
    let mut members = Vec::new(alloc);
    for number in first..end {
        let slot = Slot::new(number).expect(rt, "a slot");
        let incarnation = Incarnation::new(1).expect(rt, "an incarnation");
        members
            .push(Member { slot, incarnation })
            .expect(rt, "memory");
    }
    let epoch = Epoch::new(epoch).expect(rt, "an epoch");
    Record::new(epoch, members).expect(rt, "a chain")
}

// The member at a slot of a chain, over a new volume of 8 blocks.
fn member(
    rt: &impl Abort,
    alloc: Global,
    board: &Board,
    chain: Record,
    number: u8,
) -> Node<PlainStore>
    ensures { result.state.board ≡ board.now }
{
    let slot = Slot::new(number).expect(rt, "a slot");
    let geometry = Geometry::new(8, 8_214, 4_096).expect(rt, "a geometry");
    let Ok(store) = PlainStore::new(alloc, slot, 1, geometry) else {
        panic!(rt; "no memory")
    };
    Node::new(alloc, board, chain, store)
}

// Whether the message's write lies in the member's volume, and has a byte.
fn is_inside(node: &Node<PlainStore>, message: &Message) -> bool
    ensures { IsTrue result → IsInside (size_of node.now.store.about) message.now }
{
    match message {
        Message::Put { write, .. } | Message::Submit { write, .. } => {
            let len = write.len();
            len > 0 && node.store().geometry().contains(write.offset(), len)
        }
        Message::Ack { .. } | Message::Turn { .. } => true,
    }
}

// The one message, handed over to the member at its slot: what that sends.
fn pass(rt: &impl Abort, from: u8, node: &mut Node<PlainStore>, mut sent: Vec<Sent>) -> Out
    ensures { node.new.state.board ≡ node.old.state.board }
{
    same(rt, sent.len(), 1);
    let Sent { to, envelope } = sent.pop().expect(rt, "a message");
    same(rt, to, node.store().slot());
    assert!(rt; is_inside(node, &envelope.message));
    let from = Slot::new(from).expect(rt, "a slot");
    node.deliver(from, &envelope)
        .expect(rt, "a message that is taken")
}

// A write that is taken: what goes to the head.
fn submit(
    rt: &impl Abort,
    alloc: Global,
    node: &mut Node<PlainStore>,
    token: WriteToken,
    offset: u64,
    bytes: &[u8],
) -> Vec<Sent>
    requires { board_of token ≡ node.old.state.board }
    ensures { node.new.state.board ≡ node.old.state.board }
{
    let payload = Bytes::copy_from_slice(alloc, bytes).expect(rt, "memory");
    match node.submit(token, Write::new(offset, payload)) {
        Ok(out) => out.messages,
        Err(
            Refused {
                token,
                refusal: _,
                replies: _,
            },
        ) => {
            token.abandon();
            panic!(rt; "a write that isn't taken")
        }
    }
}

// A write of 3 bytes that is taken, without FUA: what goes to the head.
fn write(
    rt: &impl Abort,
    alloc: Global,
    board: &Board,
    node: &mut Node<PlainStore>,
    cookie: u64,
) -> Vec<Sent>
    requires { node.old.state.board ≡ board.now }
    ensures { node.new.state.board ≡ board.now }
{
    let token = OwedWrite::new(&BoardName::of(board), SessionId(4), cookie);
    submit(rt, alloc, node, WriteToken::Plain(token), 4_095, &[1, 2, 3])
}

// A READ of 3 bytes that is taken: whom that answers.
fn read(
    rt: &impl Abort,
    board: &Board,
    node: &mut Node<PlainStore>,
    cookie: u64,
    offset: u64,
) -> Vec<Served>
    requires { node.old.state.board ≡ board.now }
    ensures { node.new.state.board ≡ board.now }
{
    assert!(rt; node.store().geometry().contains(offset, 3));
    let token = OwedRead::new(&BoardName::of(board), SessionId(4), cookie);
    match node.read(token, offset, 3) {
        Ok(out) => out.replies,
        Err(
            Refused {
                token,
                refusal: _,
                replies: _,
            },
        ) => {
            token.abandon();
            panic!(rt; "a READ that isn't taken")
        }
    }
}

// A FLUSH that is taken.
fn flush(rt: &impl Abort, board: &Board, node: &mut Node<PlainStore>, cookie: u64)
    requires { node.old.state.board ≡ board.now }
    ensures { node.new.state.board ≡ board.now }
{
    let token = OwedFlush::new(&BoardName::of(board), SessionId(4), cookie);
    match node.flush(token) {
        Ok(out) => same(rt, (out.messages.len(), out.replies.len()), (0, 0)),
        Err(
            Refused {
                token,
                refusal: _,
                replies: _,
            },
        ) => {
            token.abandon();
            panic!(rt; "a FLUSH that isn't taken")
        }
    }
}

// The tail raises the front to this number, and takes it.
fn raise(
    rt: &impl Abort,
    board: &Board,
    seat: &mut Seat,
    tail: &mut Node<PlainStore>,
    number: u64,
) -> Out
    requires of_board { tail.old.state.board ≡ board.now }
    requires of_seat { seat.old.board ≡ board.now }
    ensures of_board { tail.new.state.board ≡ board.now }
    ensures of_seat { seat.new.board ≡ board.now }
{
    same(rt, tail.raise(board, seat), number);
    tail.raised()
}

// The member looks the front up, of this number, and goes on with it: whom that answers.
fn look(
    rt: &impl Abort,
    board: &Board,
    seat: &mut Seat,
    node: &mut Node<PlainStore>,
    number: u64,
) -> Vec<Served>
    requires of_board { node.old.state.board ≡ board.now }
    requires of_seat { seat.old.board ≡ board.now }
    ensures of_board { node.new.state.board ≡ board.now }
    ensures of_seat { seat.new.board ≡ board.now }
{
    same(rt, node.look(board, seat), number);
    assert!(rt; node.stopped().is_none());
    node.answer_front().replies
}

// The next known write is journaled: the receipt.
fn commit_next(rt: &impl Abort, node: &mut Node<PlainStore>) -> Synced
    ensures { node.new.state.board ≡ node.old.state.board }
{
    let Ok(begun) = node.begin_commit() else {
        panic!(rt; "a commit that doesn't begin")
    };
    same(rt, begun.replies.len(), 0);
    assert!(rt; !node.store().is_lent());
    let (ended, receipt) = node.end_commit();
    same(rt, ended.replies.len(), 0);
    receipt.expect(rt, "a receipt")
}

// What the floor pays now.
fn pay(board: &Board, seat: &mut Seat, node: &mut Node<PlainStore>) -> Vec<Served>
    requires of_board { node.old.state.board ≡ board.now }
    requires of_seat { seat.old.board ≡ board.now }
    ensures of_board { node.new.state.board ≡ board.now }
    ensures of_seat { seat.new.board ≡ board.now }
{
    let front = board.look(seat);
    let crew = board.crew(seat, front);
    let floor = Floor::read(board, seat, crew);
    node.answer_floor(&floor).replies
}

// The one reply, of this cookie and with these bytes.
fn check(rt: &impl Abort, replies: Vec<Served>, cookie: u64, bytes: &[u8]) {
    same(rt, replies.len(), 1);
    for served in replies {
        let reply = served.reply();
        same(rt, reply.session(), SessionId(4));
        same(rt, reply.cookie(), cookie);
        same(rt, reply.error(), None);
        same(rt, reply.payload(), bytes);
    }
}

// The one reply, of this cookie, which refuses with EIO.
fn check_refused(rt: &impl Abort, replies: Vec<Served>, cookie: u64) {
    same(rt, replies.len(), 1);
    for served in replies {
        let reply = served.reply();
        same(rt, reply.cookie(), cookie);
        same(rt, reply.error(), Some(ErrorCode::Io));
    }
}

// The member learns this chain: what it sends, and whom that answers.
fn tell(rt: &impl Abort, node: &mut Node<PlainStore>, chain: Record) -> Out
    ensures { node.new.state.board ≡ node.old.state.board }
{
    node.told(chain).expect(rt, "a chain of which it is")
}

// The member refuses the message, which stays.
fn check_early(rt: &impl Abort, node: &mut Node<PlainStore>, sent: &Sent)
    ensures { node.new.state.board ≡ node.old.state.board }
{
    assert!(rt; is_inside(node, &sent.envelope.message));
    let from = Slot::new(1).expect(rt, "a slot");
    let refusal = node.deliver(from, &sent.envelope).err();
    same(rt, refusal, Some(Refusal::Early));
}

// A write at the head of two goes down to the tail, which raises the front: the Ack on its way.
fn write_down(
    rt: &impl Abort,
    alloc: Global,
    board: &Board,
    seat: &mut Seat,
    head: &mut Node<PlainStore>,
    tail: &mut Node<PlainStore>,
) -> Vec<Sent>
    requires of_head { head.old.state.board ≡ board.now }
    requires of_tail { tail.old.state.board ≡ board.now }
    requires of_seat { seat.old.board ≡ board.now }
    ensures of_head { head.new.state.board ≡ board.now }
    ensures of_seat { seat.new.board ≡ board.now }
{
    let token = WriteToken::Plain(OwedWrite::new(&BoardName::of(board), SessionId(4), 1));
    let submitted = submit(rt, alloc, head, token, 1, &[5, 6]);
    let numbered = pass(rt, 0, head, submitted);
    same(rt, pass(rt, 0, tail, numbered.messages).messages.len(), 0);
    raise(rt, board, seat, tail, 1).messages
}

#[test]
fn a_write_goes_down_and_its_ack_comes_back(rt: HostRuntime) {
    let alloc = rt.alloc();
    let (board, mut seats) = Board::new(alloc, 0, 7, [0; 8], 1).expect(&rt, "memory");
    let mut seat = seats.pop().expect(&rt, "a seat");
    let mut head = member(&rt, alloc, &board, chain(&rt, alloc, 3), 0);
    let mut middle = member(&rt, alloc, &board, chain(&rt, alloc, 3), 1);
    let mut tail = member(&rt, alloc, &board, chain(&rt, alloc, 3), 2);
    let token = WriteToken::Plain(OwedWrite::new(&BoardName::of(&board), SessionId(4), 9));
    let submitted = submit(&rt, alloc, &mut middle, token, 4_095, &[1, 2, 3]);
    let numbered = pass(&rt, 1, &mut head, submitted);
    same(&rt, head.applied(), 1);
    let applied = pass(&rt, 0, &mut middle, numbered.messages);
    same(
        &rt,
        pass(&rt, 1, &mut tail, applied.messages).messages.len(),
        0,
    );
    let committed = raise(&rt, &board, &mut seat, &mut tail, 1);
    let acked = pass(&rt, 2, &mut middle, committed.messages);
    same(
        &rt,
        pass(&rt, 1, &mut head, acked.messages).replies.len(),
        0,
    );
    check(&rt, acked.replies, 9, b"");
    drop(head.abandon());
    drop(middle.abandon());
    drop(tail.abandon());
}

#[test]
fn a_write_with_fua_is_paid_by_its_receipt(rt: HostRuntime) {
    let alloc = rt.alloc();
    let (board, mut seats) = Board::new(alloc, 0, 1, [0; 8], 1).expect(&rt, "memory");
    let mut seat = seats.pop().expect(&rt, "a seat");
    let mut node = member(&rt, alloc, &board, chain(&rt, alloc, 1), 0);
    let token = WriteToken::Fua(OwedFua::new(&BoardName::of(&board), SessionId(4), 9));
    let submitted = submit(&rt, alloc, &mut node, token, 100, &[1, 2, 3]);
    same(&rt, pass(&rt, 0, &mut node, submitted).messages.len(), 0);
    let known = raise(&rt, &board, &mut seat, &mut node, 1);
    same(&rt, (known.messages.len(), known.replies.len()), (0, 0));
    let receipt = commit_next(&rt, &mut node);
    same(&rt, receipt.front(), 1);
    same(&rt, pay(&board, &mut seat, &mut node).len(), 0);
    board.post(&mut seat, receipt);
    check(&rt, pay(&board, &mut seat, &mut node), 9, b"");
    let run = Run { first: 0, count: 1 };
    let given = node.tick_run(8).map(|(_, given)| given);
    same(&rt, given, Ok(Some(run)));
    drop(node.abandon());
}

#[test]
fn a_dirty_read_waits_for_a_front(rt: HostRuntime) {
    let alloc = rt.alloc();
    let (board, mut seats) = Board::new(alloc, 0, 3, [0; 8], 1).expect(&rt, "memory");
    let mut seat = seats.pop().expect(&rt, "a seat");
    let mut head = member(&rt, alloc, &board, chain(&rt, alloc, 2), 0);
    let mut tail = member(&rt, alloc, &board, chain(&rt, alloc, 2), 1);
    let ack = write_down(&rt, alloc, &board, &mut seat, &mut head, &mut tail);
    same(&rt, read(&rt, &board, &mut head, 2, 0).len(), 0);
    check(&rt, read(&rt, &board, &mut head, 3, 4_096), 3, &[0, 0, 0]);
    check(
        &rt,
        look(&rt, &board, &mut seat, &mut head, 1),
        2,
        &[0, 5, 6],
    );
    check(&rt, pass(&rt, 1, &mut head, ack).replies, 1, b"");
    check(&rt, read(&rt, &board, &mut head, 4, 1), 4, &[5, 6, 0]);
    drop(head.abandon());
    drop(tail.abandon());
}

#[test]
fn a_flush_is_paid_by_both_receipts(rt: HostRuntime) {
    let alloc = rt.alloc();
    let (board, mut seats) = Board::new(alloc, 0, 3, [0; 8], 1).expect(&rt, "memory");
    let mut seat = seats.pop().expect(&rt, "a seat");
    let mut head = member(&rt, alloc, &board, chain(&rt, alloc, 2), 0);
    let mut tail = member(&rt, alloc, &board, chain(&rt, alloc, 2), 1);
    let ack = write_down(&rt, alloc, &board, &mut seat, &mut head, &mut tail);
    check(&rt, pass(&rt, 1, &mut head, ack).replies, 1, b"");
    flush(&rt, &board, &mut head, 2);
    same(&rt, look(&rt, &board, &mut seat, &mut head, 1).len(), 0);
    let (first, second) = (commit_next(&rt, &mut head), commit_next(&rt, &mut tail));
    board.post(&mut seat, first);
    same(&rt, pay(&board, &mut seat, &mut head).len(), 0);
    board.post(&mut seat, second);
    check(&rt, pay(&board, &mut seat, &mut head), 2, b"");
    drop(head.abandon());
    drop(tail.abandon());
}

// The second member of three, whose head stopped behind the first of two writes: that one is applied here, and its token has a
// number.
fn behind_a_lost_head(rt: &impl Abort, alloc: Global, board: &Board) -> Node<PlainStore>
    ensures { result.state.board ≡ board.now }
{
    let mut head = member(rt, alloc, board, chain(rt, alloc, 3), 0);
    let mut middle = member(rt, alloc, board, chain(rt, alloc, 3), 1);
    let submitted = write(rt, alloc, board, &mut middle, 9);
    let numbered = pass(rt, 1, &mut head, submitted);
    let applied = pass(rt, 0, &mut middle, numbered.messages);
    same(rt, applied.messages.len(), 1);
    let lost = write(rt, alloc, board, &mut middle, 10);
    same(rt, lost.len(), 1);
    drop(head.abandon());
    middle
}

// The write that the lost head numbered is sent again in the next epoch, with the Turn after it, and the other one is refused.
#[test]
fn a_chain_goes_on_without_its_head(rt: HostRuntime) {
    let alloc = rt.alloc();
    let (board, _seats) = Board::new(alloc, 0, 7, [0; 8], 1).expect(&rt, "memory");
    let mut middle = behind_a_lost_head(&rt, alloc, &board);
    let mut tail = member(&rt, alloc, &board, chain(&rt, alloc, 3), 2);
    let told = tell(&rt, &mut middle, chain_in(&rt, alloc, 2, 1, 3));
    check_refused(&rt, told.replies, 10);
    let mut puts = told.messages;
    let turn = puts.pop().expect(&rt, "a Turn");
    check_early(&rt, &mut tail, puts.first().expect(&rt, "a Put"));
    let told = tell(&rt, &mut tail, chain_in(&rt, alloc, 2, 1, 3));
    same(&rt, (told.messages.len(), told.replies.len()), (0, 0));
    same(&rt, pass(&rt, 1, &mut tail, puts).messages.len(), 0);
    let turn = vec![in alloc; turn].expect(&rt, "memory");
    same(&rt, pass(&rt, 1, &mut tail, turn).messages.len(), 0);
    same(&rt, (tail.applied(), middle.applied()), (1, 1));
    drop(middle.abandon());
    drop(tail.abandon());
}

// A record without the member is none of its own.
#[test]
fn a_member_isnt_told_a_record_of_others(rt: HostRuntime) {
    let alloc = rt.alloc();
    let (board, _seats) = Board::new(alloc, 0, 7, [0; 8], 1).expect(&rt, "memory");
    let mut node = member(&rt, alloc, &board, chain(&rt, alloc, 3), 1);
    let others = chain_in(&rt, alloc, 2, 2, 3);
    same(&rt, node.told(others).err(), Some(Refusal::NotMember));
    drop(node.abandon());
}
