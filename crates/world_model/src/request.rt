use std::marker::Model;
use volume::Write;

/// What a client asks of the volume.
#[derive(Debug, Drop)]
pub struct Request {
    kind: Kind,
}

#[derive(Debug, Drop)]
enum Kind {
    Read { offset: u64, len: u64 },
    Write(Write),
    Fua(Write),
    Flush,
}

impl Model for Request {
    ghost use Rattle.world_model.specs.Event.{Request as Asks};

    ghost Value = { Asks };

    ghost use Rattle.world_model.specs.Views.{request_of};

    ghost view = { λ r. request_of r.kind };
}

impl Request {
    ghost use Rattle.std.specs.Prelude.{◌≡◌, ◌↔◌, IsTrue, option_copied};
    ghost use Rattle.std.specs.Option.{option_map};
    ghost use Rattle.world_model.specs.Event.{Read, Write as Writes, Fua, Flush};
    ghost use Rattle.world_model.specs.Machine.{IsFlush, IsFua, IsPlain, written};
    ghost use Rattle.world_model.specs.Views.{range_asked};

    /// A READ of so many bytes, from the byte `offset` of the volume on.
    pub fn read(offset: u64, len: u64) -> Self
        ensures { result ≡ Read offset len }
    {
        Request {
            kind: Kind::Read { offset, len },
        }
    }

    /// A write.
    pub fn write(write: Write) -> Self
        ensures { result ≡ Writes write }
    {
        Request {
            kind: Kind::Write(write),
        }
    }

    /// A write that is to be kept before it is answered.
    pub fn fua(write: Write) -> Self
        ensures { result ≡ Fua write }
    {
        Request {
            kind: Kind::Fua(write),
        }
    }

    /// A FLUSH.
    pub fn flush() -> Self
        ensures { result ≡ Flush }
    {
        Request { kind: Kind::Flush }
    }

    /// Whether it is a write without FUA.
    pub fn is_plain(&self) -> bool
        ensures { IsTrue result ↔ IsPlain self.now }
    {
        matches!(self.kind, Kind::Write(_))
    }

    /// Whether it is a write with FUA.
    pub fn is_fua(&self) -> bool
        ensures { IsTrue result ↔ IsFua self.now }
    {
        matches!(self.kind, Kind::Fua(_))
    }

    /// Whether it is a FLUSH.
    pub fn is_flush(&self) -> bool
        ensures { IsTrue result ↔ IsFlush self.now }
    {
        matches!(self.kind, Kind::Flush)
    }

    /// What it asks to be put where, if it is a write.
    pub fn written(&self) -> Option<&Write>
        ensures { option_copied result ≡ written self.now }
    {
        match &self.kind {
            Kind::Write(write) | Kind::Fua(write) => Some(write),
            _ => None,
        }
    }

    /// The offset and length of the bytes that it asks for, if it is a READ.
    pub fn range(&self) -> Option<(u64, u64)>
        ensures { result ≡ range_asked self.now }
    {
        match self.kind {
            Kind::Read { offset, len } => Some((offset, len)),
            _ => None,
        }
    }
}
