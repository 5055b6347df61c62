//! How a chain begins, and how it is given up.
ghost use Rattle.std.specs.Prelude.{◌≡◌, ◌<◌, ℕ, List, [], All, None, false, length, map, replicate, IfErr, IfOk, IfSome, slice_get};
ghost use Rattle.chain_core.specs.Node.{size_of};
ghost use Rattle.local_store.specs.About.{IsOfVersionTwo};
ghost use Rattle.chain_model.specs.Laws.{IsBeginning};
ghost use Rattle.chain_model.specs.View.{View};
ghost use Rattle.chain.specs.Chain.{Shows};
ghost use Rattle.chain.specs.Joining.{joined_of};
ghost use Rattle.chain.specs.Opening.{AreEven, beginning_of, gauges_of, mask_of, recorded_in, words_of, youngest_of};

use crate::chain::Chain;
use crate::links::Links;
use crate::lone_board::LoneBoard;
use crate::member::Member;
use board::Board;
use chain_core::Node;
use configurations::{Member as Recorded, Record};
use local_store::StoreLike;
use std::alloc::{AllocError, Global};

impl<S: StoreLike + Drop> Member<S> {
    /// The member whose store this is, in a chain that begins.
    fn new(alloc: Global, board: &Board, told: Record, store: S) -> Member<S>
        requires runs { (S.about store).broken ≡ false }
        requires version { IsOfVersionTwo (S.about store) }
        requires here { (S.about store).lent ≡ None }
        requires keeps { S.keeps_model → (volume : List ℕ) × S.keeps store volume × (length volume ≡ size_of (S.about store)) }
        ensures { result ≡ beginning_of S.about board.now told store }
    {
        Member::of(Node::new(alloc, board, told, store))
    }

    /// The member whose store this is, in a chain that it joins.
    pub(crate) fn join(alloc: Global, board: &Board, told: Record, store: S) -> Member<S>
        requires runs { (S.about store).broken ≡ false }
        requires version { IsOfVersionTwo (S.about store) }
        requires here { (S.about store).lent ≡ None }
        requires keeps { S.keeps_model → (volume : List ℕ) × S.keeps store volume × (length volume ≡ size_of (S.about store)) }
        ensures { result ≡ joined_of S.about board.now told store }
    {
        Member::of(Node::join(alloc, board, told, store))
    }

    /// A member that has nothing of the board in use.
    fn of(node: Node<S>) -> Member<S>
        ensures { result ≡ record { node = node; front = None; muster = None; receipt = None } }
    {
        Member {
            node,
            front: None,
            muster: None,
            receipt: None,
        }
    }
}

impl<S: StoreLike + Drop> Chain<S> {
    /// A chain that begins over these stores: one of each recorded member, in the chain's order, none of them broken, their disks
    /// of version 2, their logs not lent, all at one front, with volumes of the same sizes; each incarnation is at least 1.
    ///
    /// Where memory runs out, it hands the stores back.
    pub fn new(alloc: Global, told: Record, stores: Vec<S>) -> Result<Chain<S>, Vec<S>>
        requires recorded { map (recorded_in S.about) stores.items ≡ told.members }
        requires incarnations { All (λ m. 0 < m.incarnation) told.members }
        requires even { AreEven S.about stores.items }
        requires runs { All (λ store. (S.about store).broken ≡ false) stores.items }
        requires version { All (λ store. IsOfVersionTwo (S.about store)) stores.items }
        requires here { All (λ store. (S.about store).lent ≡ None) stores.items }
        requires keeps { S.keeps_model → All (λ store. (volume : List ℕ) × S.keeps store volume × (length volume ≡ size_of (S.about store))) stores.items }
        ensures told { IfOk result (λ chain. (chain.recorded ≡ told) × (chain.before ≡ told) × (chain.writing ≡ None) × (chain.youngest ≡ youngest_of told.members)) }
        ensures links { IfOk result (λ chain. (chain.links ≡ replicate 64 []) × (chain.submits ≡ replicate 64 [])) }
        ensures sizes { IfOk result (λ chain. IfSome (slice_get stores.items 0) (λ first. chain.geometry ≡ (S.about first).geometry)) }
        ensures words { IfOk result (λ chain. IfSome (slice_get stores.items 0) (λ first. chain.words ≡ words_of (S.about first).front told.members)) }
        ensures members { IfOk result (λ chain. chain.members ≡ map (beginning_of S.about chain.id told) stores.items) }
        ensures begins { S.keeps_model → IfOk result (λ chain. (volume : List ℕ) → All (λ store. S.keeps store volume) stores.items
            → (v : View) × Shows S.about S.keeps S.may_leave_now chain v × IsBeginning chain.words.front volume v) }
        ensures back { IfErr result (λ given. given.items ≡ stores.items) }
    {
        let first = &stores[0];
        let front = first.front();
        let geometry = first.geometry();
        let Ok(copies) = copies_of(alloc, &told, stores.len()) else {
            return Err(stores);
        };
        let mask = mask_of(told.members());
        let gauges = gauges_of(front, told.members());
        let youngest = youngest_of(told.members());
        let Ok(board) = LoneBoard::new(alloc, front, mask, gauges) else {
            return Err(stores);
        };
        let Ok(before) = copy_of(alloc, &told) else {
            return Err(stores);
        };
        let Ok(links) = Links::new(alloc) else {
            return Err(stores);
        };
        let Ok(submits) = Links::new(alloc) else {
            return Err(stores);
        };
        let members = match begin_all(alloc, board.board(), &told, copies, stores) {
            Ok(members) => members,
            Err(stores) => return Err(stores),
        };
        Ok(Chain {
            alloc,
            board,
            recorded: told,
            before,
            writing: None,
            youngest,
            geometry,
            members,
            links,
            submits,
        })
    }

    /// Gives the chain up, and its stores back, in the order of their places. The tokens that wait are abandoned.
    ///
    /// Where memory runs out, the stores are dropped.
    pub fn abandon(self) -> Result<Vec<S>, AllocError>
        ensures { IfOk result (λ stores. stores.items ≡ map (λ m. m.node.store) self.members) }
    {
        let Chain {
            alloc,
            board: _,
            recorded: _,
            before: _,
            writing: _,
            youngest: _,
            geometry: _,
            mut members,
            links: _,
            submits: _,
        } = self;
        let Ok(mut stores) = Vec::with_capacity(alloc, members.len()) else {
            while let Some(member) = members.pop() {
                drop(member.abandon());
            }
            members.destroy_empty();
            return Err(AllocError);
        };
        while !members.is_empty() {
            let member = members.remove(0);
            stores.push_reserved(member.abandon());
        }
        members.destroy_empty();
        Ok(stores)
    }
}

/// The members of these stores, each of which was told the record. Where memory runs out, it hands the stores back.
fn begin_all<S: StoreLike + Drop>(
    alloc: Global,
    board: &Board,
    told: &Record,
    copies: Vec<Record>,
    stores: Vec<S>,
) -> Result<Vec<Member<S>>, Vec<S>>
    requires copies { copies.items ≡ replicate (length stores.items) told.now }
    requires runs { All (λ store. (S.about store).broken ≡ false) stores.items }
    requires version { All (λ store. IsOfVersionTwo (S.about store)) stores.items }
    requires here { All (λ store. (S.about store).lent ≡ None) stores.items }
    requires keeps { S.keeps_model → All (λ store. (volume : List ℕ) × S.keeps store volume × (length volume ≡ size_of (S.about store))) stores.items }
    ensures members { IfOk result (λ members. members.items ≡ map (beginning_of S.about board.now told.now) stores.items) }
    ensures back { IfErr result (λ given. given.items ≡ stores.items) }
{
    let mut copies = copies;
    let Ok(mut members) = Vec::with_capacity(alloc, stores.len()) else {
        return Err(stores);
    };
    for store in stores {
        match copies.pop() {
            Some(copy) => members.push_reserved(Member::new(alloc, board, copy, store)),
            None => unreachable!(),
        }
    }
    Ok(members)
}

/// The record so many times.
fn copies_of(alloc: Global, told: &Record, count: usize) -> Result<Vec<Record>, AllocError>
    ensures { IfOk result (λ copies. copies.items ≡ replicate count told.now) }
{
    let mut copies = Vec::with_capacity(alloc, count)?;
    while copies.len() < count {
        copies.push_reserved(copy_of(alloc, told)?);
    }
    Ok(copies)
}

/// The record once more.
pub(crate) fn copy_of(alloc: Global, told: &Record) -> Result<Record, AllocError>
    ensures { IfOk result (λ copy. copy ≡ told.now) }
{
    let members = Vec::from_slice(alloc, told.members())?;
    match Record::new(told.epoch(), members) {
        Ok(copy) => Ok(copy),
        Err(_) => unreachable!(),
    }
}

/// The mask that counts these members' slots.
fn mask_of(members: &[Recorded]) -> u8
    ensures { result ≡ mask_of members.now }
{
    let mut mask = 0;
    for member in members {
        mask |= 1 << member.slot.number();
    }
    mask
}

/// The greatest of these members' incarnations.
fn youngest_of(members: &[Recorded]) -> u64
    ensures { result ≡ youngest_of members.now }
{
    let mut youngest = 0;
    for member in members {
        let incarnation = member.incarnation.number();
        if youngest < incarnation {
            youngest = incarnation;
        }
    }
    youngest
}

/// The gauges of these members' slots at this front.
fn gauges_of(front: u64, members: &[Recorded]) -> [u64; Board::SLOTS]
    ensures { result ≡ gauges_of front members.now }
{
    let mut gauges = [0; Board::SLOTS];
    for member in members {
        gauges[usize::from(member.slot.number())] = front;
    }
    gauges
}
