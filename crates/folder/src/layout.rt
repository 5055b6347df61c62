ghost use Rattle.std.specs.Prelude.{◌≡◌, ◌<◌, ◌≤◌, ◌↔◌, IfOk, IsErrOf, IsOk};
ghost use Rattle.configurations.specs.declared.refusal.Refusal.TheVariants.{BadMembers};
ghost use Rattle.home_blocks.specs.Places.{disk_size_of};
ghost use Rattle.volume.specs.Limits.{AreBlocks, IsPayload, least_area_of};
ghost use Rattle.volume.specs.declared.refusal.Refusal.TheVariants.{AreaTooSmall, BadBlocks, BadPayload};

use crate::Refusal;
use configurations::MAX_MEMBERS;
use home_blocks::disk_size;
use volume::Geometry;

/// What a folder is formatted for: the sizes of the volume and of its members' disks, and how many members there are.
#[derive(Clone, Copy, Debug, PartialEq, Eq)]
pub struct Layout {
    /// The sizes of the volume and of each member's disk.
    pub geometry: Geometry,
    /// The members of the first chain, 1 to 8.
    pub members: u8,
    ghost some: { 0 < members },
    ghost few: { members ≤ 8 },
}

impl Layout {
    /// The layout of these numbers, tested in this order: 111 `BadBlocks`, 112 `BadPayload`, 113 `AreaTooSmall`, as a
    /// geometry is; 163 `BadMembers`, for none and for more than eight.
    pub fn new(blocks: u32, max_payload: u32, area: u32, members: u32) -> Result<Layout, Refusal>
        ensures blocks { IfOk result (λ l. l.geometry.blocks ≡ blocks) }
        ensures max_payload { IfOk result (λ l. l.geometry.max_payload ≡ max_payload) }
        ensures area { IfOk result (λ l. l.geometry.area ≡ area) }
        ensures members { IfOk result (λ l. l.members ≡ members) }

        ensures ok { AreBlocks blocks → IsPayload max_payload → least_area_of max_payload ≤ area
            → 0 < members → members ≤ 8 → IsOk result }
        ensures bad_blocks { IsErrOf result (Refusal.Sizes BadBlocks) ↔ ¬ AreBlocks blocks }
        ensures bad_payload { IsErrOf result (Refusal.Sizes BadPayload) ↔ (AreBlocks blocks × ¬ IsPayload max_payload) }
        ensures area_too_small { IsErrOf result (Refusal.Sizes AreaTooSmall)
            ↔ (AreBlocks blocks × IsPayload max_payload × area < least_area_of max_payload) }
        ensures bad_members { IsErrOf result (Refusal.Chain BadMembers)
            ↔ (AreBlocks blocks × IsPayload max_payload × least_area_of max_payload ≤ area × ¬ ((0 < members) × (members ≤ 8))) }
    {
        let geometry = match Geometry::new(blocks, area, max_payload) {
            Ok(geometry) => geometry,
            Err(refusal) => return Err(Refusal::Sizes(refusal)),
        };
        if members == 0 || members > MAX_MEMBERS as u32 {
            return Err(Refusal::Chain(configurations::Refusal::BadMembers));
        }
        Ok(Layout {
            geometry,
            members: members as u8,
        })
    }

    /// The bytes of a member's disk.
    pub fn disk_size(self) -> u64
        ensures { result ≡ disk_size_of self.geometry }
    {
        disk_size(self.geometry)
    }
}
