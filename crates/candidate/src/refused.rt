//! A disk that refused.
ghost use Rattle.std.specs.Prelude.{◌≡◌, None, Some};
ghost use Rattle.joining.specs.Copying.{IsOf, MeansOnly};
ghost use Rattle.std.specs.Option.{ForSome};

use configurations::Member;
use disk_model::Disk;
use std::marker::Model;

/// A disk that refused something: it gets no further.
#[derive(Drop)]
pub struct Refused<D: Disk> {
    /// The member of which it may mean a volume, and of no other. None where it refused the calls by which its installation begins: what
    /// it means then isn't known.
    member: Option<Member>,
    disk: D,
}

impl<D: Disk> Model for Refused<D> {
    ghost use Rattle.candidate.specs.Candidate.{Refused};
    ghost use Rattle.joining.specs.Copying.{IsOf, MeansOnly};
    ghost use Rattle.std.specs.Option.{ForSome};

    ghost Value = { Refused D };

    ghost view = { λ r. record { member = r.member; disk = r.disk } };

    ghost invariant = { λ r. D.keeps_model → ForSome r.member (λ member. MeansOnly D.may_leave_now (IsOf member) r.disk) };
}

impl<D: Disk + Drop> Refused<D> {
    /// As its installation was to begin.
    pub(crate) fn at_once(disk: D) -> Refused<D>
        ensures { result ≡ record { member = None; disk = disk } }
    {
        Refused { member: None, disk }
    }

    /// Of this member, of which it means a volume, or nothing.
    pub(crate) fn of(member: Member, disk: D) -> Refused<D>
        requires { D.keeps_model → MeansOnly D.may_leave_now (IsOf member) disk }
        ensures { result ≡ record { member = Some member; disk = disk } }
    {
        Refused {
            member: Some(member),
            disk,
        }
    }

    /// The disk.
    pub fn disk(&self) -> &D
        ensures { result.now ≡ self.now.disk }
    {
        &self.disk
    }

    /// The member of which it may mean a volume, if that is known, and the disk.
    pub fn into_parts(self) -> (Option<Member>, D)
        ensures parts { (result.0 ≡ self.member) × (result.1 ≡ self.disk) }
        ensures only { D.keeps_model → ForSome result.0 (λ member. MeansOnly D.may_leave_now (IsOf member) result.1) }
    {
        let Refused { member, disk } = self;
        (member, disk)
    }
}
