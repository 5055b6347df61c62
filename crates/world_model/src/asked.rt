use crate::request::Request;
use flush_barrier::SessionId;
use std::marker::Model;

/// A request that was sent.
#[derive(Debug, Drop)]
pub struct AskedRequest {
    name: u64,
    session: SessionId,
    cookie: u64,
    request: Request,
    mark: usize,
    due: usize,
}

impl Model for AskedRequest {
    ghost use Rattle.world_model.specs.Machine.{Asked};

    ghost Value = { Asked };

    ghost view = { λ a. record { name = a.name; session = a.session; cookie = a.cookie; request = a.request; mark = a.mark; due = a.due } };
}

impl AskedRequest {
    ghost use Rattle.std.specs.Prelude.{◌≡◌};
    ghost use Rattle.world_model.specs.Machine.{Asked};

    /// The request under its name, with the number of writes that were taken when it was sent, and the place of the
    /// last of them that was answered.
    pub fn new(
        name: u64,
        session: SessionId,
        cookie: u64,
        request: Request,
        mark: usize,
        due: usize,
    ) -> Self
        ensures { let asked : Asked = record { name = name; session = session; cookie = cookie; request = request; mark = mark; due = due } in result ≡ asked }
    {
        AskedRequest {
            name,
            session,
            cookie,
            request,
            mark,
            due,
        }
    }

    /// Its name.
    pub fn name(&self) -> u64
        ensures { result ≡ self.now.name }
    {
        self.name
    }

    /// What it asks.
    pub fn request(&self) -> &Request
        ensures { result.now ≡ self.now.request }
    {
        &self.request
    }

    /// How many writes were taken when it was sent.
    pub fn mark(&self) -> usize
        ensures { result ≡ self.now.mark }
    {
        self.mark
    }

    /// The place of the last of them that was answered, or 0.
    pub fn due(&self) -> usize
        ensures { result ≡ self.now.due }
    {
        self.due
    }
}
