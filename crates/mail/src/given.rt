ghost use Rattle.std.specs.Prelude.{◌≡◌, ◌+◌, ◌≤◌, ◌++◌, [], true};

use chain_core::Served;
use std::alloc::Global;
use std::marker::Model;

/// Replies that members gave, on the way to their mailboxes. It has no `Drop`: `MailRoom::post` ends it.
#[must_use]
pub struct Given {
    pub(crate) lists: Vec<Vec<Served>>,
}

impl Model for Given {
    ghost use Rattle.std.specs.Prelude.{◌-◌, vec_capacity, vec_len};
    ghost use Rattle.mail.specs.Given.{OnTheWay, flat};

    ghost Value = { OnTheWay };

    ghost view = { λ given. record { replies = flat (λ list. list.items) given.lists.items; room = vec_capacity given.lists - vec_len given.lists } };
}

impl Given {
    /// No replies.
    pub fn new(alloc: Global) -> Given
        ensures { result.replies ≡ [] }
    {
        Given {
            lists: Vec::new(alloc),
        }
    }

    /// Makes room for so many lists more. False where memory runs out.
    pub fn make_room(&mut self, lists: usize) -> bool
        ensures same { self.new.replies ≡ self.old.replies }
        ensures room { result ≡ true → lists ≤ self.new.room }
    {
        self.lists.reserve(lists).is_ok()
    }

    /// The replies of a call stand behind the others. There is room for a list.
    pub fn add(&mut self, replies: Vec<Served>)
        requires { 1 ≤ self.old.room }
        ensures replies { self.new.replies ≡ self.old.replies ++ replies.items }
        ensures room { self.old.room ≤ self.new.room + 1 }
    {
        if !replies.is_empty() {
            self.lists.push_reserved(replies);
        }
    }
}
