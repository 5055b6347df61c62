ghost use Rattle.std.specs.Prelude.{◌≡◌, ◌<◌, ◌↔◌, IsSome, IfSome};

/// One of the two journal areas of a disk.
#[derive(Clone, Copy, Debug, PartialEq, Eq)]
pub enum Area {
    First,
    Second,
}

impl Area {
    ghost use Rattle.home_blocks.specs.Area.{area_number, other_area};

    /// Its number, 0 or 1.
    pub fn number(self) -> u8
        ensures { result ≡ area_number self }
    {
        match self {
            Area::First => 0,
            Area::Second => 1,
        }
    }

    /// The area with this number, or `None` above 1.
    pub(crate) fn from_number(number: u8) -> Option<Area>
        ensures valid { IsSome result ↔ (number < 2) }
        ensures value { IfSome result (λ area. area_number area ≡ number) }
    {
        match number {
            0 => Some(Area::First),
            1 => Some(Area::Second),
            _ => None,
        }
    }

    /// The one that isn't this one.
    pub fn other(self) -> Area
        ensures { result ≡ other_area self }
    {
        match self {
            Area::First => Area::Second,
            Area::Second => Area::First,
        }
    }
}
