use std::marker::Model;
use volume::Write;

/// A write that was taken.
#[derive(Debug, Drop)]
pub struct TakenWrite {
    name: u64,
    write: Write,
    answered: bool,
}

impl Model for TakenWrite {
    ghost use Rattle.world_model.specs.Machine.{Taken};

    ghost Value = { Taken };

    ghost view = { λ t. record { name = t.name; write = t.write; answered = t.answered } };
}

impl TakenWrite {
    ghost use Rattle.std.specs.Prelude.{◌≡◌, false, true};
    ghost use Rattle.world_model.specs.Machine.{Taken};

    /// The write of the request of this name, not answered yet.
    pub fn new(name: u64, write: Write) -> Self
        ensures { let taken : Taken = record { name = name; write = write; answered = false } in result ≡ taken }
    {
        TakenWrite {
            name,
            write,
            answered: false,
        }
    }

    /// The name of its request.
    pub fn name(&self) -> u64
        ensures { result ≡ self.now.name }
    {
        self.name
    }

    /// What is written.
    pub fn write(&self) -> &Write
        ensures { result.now ≡ self.now.write }
    {
        &self.write
    }

    /// Whether it was answered.
    pub fn is_answered(&self) -> bool
        ensures { result ≡ self.now.answered }
    {
        self.answered
    }

    /// Marks it as answered.
    pub fn answer(&mut self)
        ensures { self.new ≡ record self.old { answered = true } }
    {
        self.answered = true;
    }
}
