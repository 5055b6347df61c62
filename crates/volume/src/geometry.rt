ghost use Rattle.std.specs.Prelude.{◌≡◌, ◌+◌, ◌*◌, ◌≤◌, ◌<◌, ◌^◌, ◌↔◌, IsTrue, IsOk, IfOk, IsErrOf, ◌≢◌};
ghost use Rattle.volume.specs.Limits.{AreBlocks, IsPayload, least_area_of};

use crate::refusal::Refusal;

/// The bytes of a block.
pub const BLOCK_SIZE: u64 = 4_096;

/// The most blocks that a volume has.
pub const MAX_BLOCKS: u32 = 65_536;

/// The smallest bound on the payload of a request, in bytes.
pub const MIN_MAX_PAYLOAD: u32 = 4_096;

/// The largest bound on the payload of a request, in bytes.
pub const MAX_MAX_PAYLOAD: u32 = 1_048_576;

/// What a journal area takes beside its images: a batch's gate, front and count, and the next gate.
const BATCH_OVERHEAD: u32 = 14;

/// An image in a journal area: a block's number and its bytes.
const IMAGE_RECORD: u32 = 4_100;

/// The least journal area, in bytes, for requests of up to `max_payload` bytes: a batch of each block that such a
/// write can touch, and a closed gate. `max_payload` is at most 1,048,576.
pub fn least_area(max_payload: u32) -> u32
    requires { max_payload ≤ MAX_MAX_PAYLOAD }
    ensures { result ≡ least_area_of max_payload }
{
    BATCH_OVERHEAD + IMAGE_RECORD * (max_payload / BLOCK_SIZE as u32 + 1)
}

/// The sizes of a volume and of its members' disks, all within the limits.
#[derive(Clone, Copy, Debug, PartialEq, Eq)]
pub struct Geometry {
    /// The blocks of the volume, 1 to 65,536.
    pub blocks: u32,
    /// The bytes of a journal area, at least `least_area(max_payload)`.
    pub area: u32,
    /// The largest payload of a request, in bytes: a power of two, 4,096 to 1,048,576.
    pub max_payload: u32,
    ghost some_blocks: { AreBlocks blocks },
    ghost payload_in_range: { IsPayload max_payload },
    ghost area_fits: { least_area_of max_payload ≤ area },
}

impl Geometry {
    /// The geometry of these numbers, tested in this order: 111 `BadBlocks`, 112 `BadPayload`, 113 `AreaTooSmall`.
    pub fn new(blocks: u32, area: u32, max_payload: u32) -> Result<Geometry, Refusal>
        ensures blocks { IfOk result (λ g. g.blocks ≡ blocks) }
        ensures area { IfOk result (λ g. g.area ≡ area) }
        ensures max_payload { IfOk result (λ g. g.max_payload ≡ max_payload) }

        ensures ok { AreBlocks blocks → IsPayload max_payload → least_area_of max_payload ≤ area → IsOk result }
        ensures bad_blocks { IsErrOf result Refusal.BadBlocks ↔ ¬ AreBlocks blocks }
        ensures bad_payload { IsErrOf result Refusal.BadPayload ↔ (AreBlocks blocks × ¬ IsPayload max_payload) }
        ensures area_too_small { IsErrOf result Refusal.AreaTooSmall
            ↔ (AreBlocks blocks × IsPayload max_payload × area < least_area_of max_payload) }
    {
        if blocks == 0 || blocks > MAX_BLOCKS {
            return Err(Refusal::BadBlocks);
        }
        if !is_payload(max_payload) {
            return Err(Refusal::BadPayload);
        }
        if area < least_area(max_payload) {
            return Err(Refusal::AreaTooSmall);
        }
        Ok(Geometry {
            blocks,
            area,
            max_payload,
        })
    }

    /// The bytes of the volume.
    pub fn size(self) -> u64
        ensures size { result ≡ 4096 * self.blocks }
        ensures within { result ≤ 2 ^ 28 }
    {
        u64::from(self.blocks) * BLOCK_SIZE
    }

    /// Whether `len` bytes from `offset` on lie inside the volume.
    pub fn contains(self, offset: u64, len: u64) -> bool
        ensures { IsTrue result ↔ (offset + len ≤ 4096 * self.blocks) }
    {
        len <= self.size() && offset <= self.size() - len
    }
}

fn is_payload(max_payload: u32) -> bool
    ensures { IsTrue result ↔ IsPayload max_payload }
{
    (MIN_MAX_PAYLOAD..=MAX_MAX_PAYLOAD).contains(&max_payload) && max_payload.is_power_of_two()
}
