// Where a member's disk has its parts: the superblock's, the home region, area 0, area 1.
ghost use Rattle.std.specs.Prelude.{◌≡◌, ◌+◌, ◌≤◌};
ghost use Rattle.disk_model.specs.Part.{IsApart};
ghost use Rattle.disk_model.specs.declared.part.Part.{Part as Placed};
ghost use Rattle.home_blocks.specs.Area.{other_area};
ghost use Rattle.home_blocks.specs.Places as places;
ghost use Rattle.home_blocks.specs.Places.{IsAreaPart, border_of, disk_size_of};

use crate::Area;
use disk_model::Part;
use gate_journal::PAIR_SIZE;
use volume::Geometry;

/// How many bytes a disk has at least, for a volume of this geometry.
pub fn disk_size(geometry: Geometry) -> u64
    ensures { result ≡ disk_size_of geometry }
{
    PAIR_SIZE + geometry.size() + 2 * u64::from(geometry.area)
}

/// The part with the pair that holds the superblock: the first 8,192 bytes.
pub fn superblock_part() -> Part
    ensures { result ≡ places.superblock_part }
{
    Part::new(0, PAIR_SIZE)
}

/// The part with the blocks of the volume, one behind the other.
pub fn home_part(geometry: Geometry) -> Part
    ensures part { result ≡ places.home_part geometry }
    ensures end { result.start + result.len ≡ border_of geometry }
    ensures apart { IsApart places.superblock_part result }
{
    Part::new(PAIR_SIZE, geometry.size())
}

/// The part of a journal area. It lies apart from the superblock's part, the home region and the other area.
pub fn area_part(geometry: Geometry, area: Area) -> Part
    ensures part { IsAreaPart geometry area result }
    ensures within { result.start + result.len ≤ disk_size_of geometry }
    ensures superblock { IsApart places.superblock_part result }
    ensures home { IsApart (places.home_part geometry) result }
    ensures other { (part : Placed) → IsAreaPart geometry (other_area area) part → IsApart part result }
{
    let len = u64::from(geometry.area);
    let first = PAIR_SIZE + geometry.size();
    Part::new(first + u64::from(area.number()) * len, len)
}
