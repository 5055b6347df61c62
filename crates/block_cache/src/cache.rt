ghost use Rattle.std.specs.Prelude.{◌≡◌, ◌≢◌, ◌⊎◌, ◌+◌, ◌*◌, ◌<◌, ◌≤◌, ◌↔◌, List, [], ℕ, length, nat_eq, IfOk, IsOk, IsTrue, OnOk};
ghost use Rattle.std.specs.List.{IsDistinct};
ghost use Rattle.std.specs.Map.{keys_of};
ghost use Rattle.disk_model.specs.Disk.{put};
ghost use Rattle.disk_model.specs.Error.{HasCause};
ghost use Rattle.disk_model.specs.Part.{inside};
ghost use Rattle.gate_journal.specs.Runs.{OnlyReads};
ghost use Rattle.home_blocks.specs.Places.{border_of, home_block, home_part};
ghost use Rattle.volume.specs.Writes.{block_of};
ghost use Rattle.block_cache.specs.Cache.{Agrees, IsCached, Keeps};

use disk_model::{Disk, DiskError};
use home_blocks::Home;
use lru::LruCache;
use std::alloc::{AllocError, Global};
use std::marker::Model;
use std::num::NonZeroUsize;
use volume::BLOCK_SIZE;

/// The most blocks that a cache keeps.
pub const CAPACITY: usize = 256;

/// The bytes of a block.
const BLOCK_BYTES: usize = 4_096;

/// Blocks of the home region, up to 256 of them: those that were used last.
///
/// A block comes in the second time that it is read from the disk, so that what is read once, as by a long read, drives nothing out.
#[derive(Drop)]
pub struct Cache {
    blocks: LruCache<u32, [u8; BLOCK_BYTES]>,
    /// The blocks that were read from the disk last, each at the place of its number modulo 256, with 1 added.
    read_once: [u32; CAPACITY],
}

impl Model for Cache {
    ghost use Rattle.std.specs.Prelude.{◌≡◌};
    ghost use Rattle.block_cache.specs.Cache.{Blocks};

    ghost Value = { Blocks };

    ghost view = { λ c. c.blocks.entries };

    ghost invariant = { λ c. c.blocks.cap ≡ 256 };
}

impl Cache {
    /// A cache that keeps no block.
    pub fn new(alloc: Global) -> Result<Cache, AllocError>
        ensures { IfOk result (λ cache. cache ≡ []) }
    {
        let capacity = NonZeroUsize::new(CAPACITY).unwrap();
        Ok(Cache {
            blocks: LruCache::new(alloc, capacity)?,
            read_once: [0; CAPACITY],
        })
    }

    /// How many blocks it keeps: at most 256, and none twice.
    pub fn len(&self) -> usize
        ensures len { result ≡ length self.now }
        ensures few { result ≤ CAPACITY }
        ensures once { IsDistinct nat_eq (keys_of self.now) }
    {
        self.blocks.len()
    }

    /// Whether it keeps none.
    pub fn is_empty(&self) -> bool
        ensures { IsTrue result ↔ (self.now ≡ []) }
    {
        self.blocks.is_empty()
    }

    /// Whether it keeps a block, which it does once at most.
    pub fn contains(&self, block: u32) -> bool
        ensures contains { IsTrue result ↔ IsCached self.now block }
        ensures once { IsDistinct nat_eq (keys_of self.now) }
    {
        self.len() > 0 && self.blocks.contains(&block)
    }

    /// Reads a block of the home region, of 4,096 bytes: out of the cache, or from the disk. The second time that it comes from
    /// the disk the cache keeps it, where memory is found.
    pub fn read<D: Disk>(
        &mut self,
        disk: &mut D,
        home: &Home,
        block: u32,
        bytes: &mut [u8],
    ) -> Result<(), DiskError>
        requires on_disk { border_of home.now.superblock.geometry ≤ D.size disk.old }
        requires block { block < home.now.superblock.geometry.blocks }
        requires whole { length bytes.old ≡ BLOCK_SIZE }

        ensures read { D.keeps_model → Agrees self.old (inside (home_part home.now.superblock.geometry) (D.gives disk.old))
            → OnOk result (bytes.new ≡ home_block (D.gives disk.old) home.now.superblock.geometry block) }
        ensures agrees { D.keeps_model → Agrees self.old (inside (home_part home.now.superblock.geometry) (D.gives disk.old))
            → Agrees self.new (inside (home_part home.now.superblock.geometry) (D.gives disk.new)) }
        ensures hit { IsCached self.old block → IsOk result × (disk.new ≡ disk.old) }
        ensures kept { IsCached self.old block → (b : ℕ) (image : List ℕ) → Keeps self.old b image → Keeps self.new b image }
        ensures reads { D.keeps_model → OnlyReads D.gives D.may_leave_now D.moment D.may_have_left_since disk.old disk.new }
        ensures size { D.size disk.new ≡ D.size disk.old }
        ensures cause { HasCause DiskError.ReadFault (D.failures disk.old) (D.failures disk.new) result }
        ensures calls { D.calls_made disk.new ≤ D.calls_made disk.old + 1 }
    {
        if let Some(image) = self.blocks.get(&block).copied() {
            bytes.copy_from_slice(&image);
            return Ok(());
        }
        home.read_home(disk, block, bytes)?;
        self.keep_if_read_again(block, bytes);
        Ok(())
    }

    /// Keeps a block that came from the disk, as `keep` does, where it came from there a short while ago too.
    fn keep_if_read_again(&mut self, block: u32, bytes: &[u8])
        requires { length bytes.now ≡ BLOCK_BYTES }
        ensures kept { (b : ℕ) (image : List ℕ) → Keeps self.new b image → Keeps self.old b image ⊎ ((b ≡ block) × (image ≡ bytes.now)) }
    {
        let place = block as usize % CAPACITY;
        let mark = block.wrapping_add(1);
        if self.read_once[place] == mark {
            self.keep(block, bytes);
        } else {
            self.read_once[place] = mark;
        }
    }

    /// Keeps these bytes of a block, in place of what it keeps of it, where memory is found: it is, where the block is there.
    fn keep(&mut self, block: u32, bytes: &[u8])
        requires { length bytes.now ≡ BLOCK_BYTES }
        ensures kept { (b : ℕ) (image : List ℕ) → Keeps self.new b image → Keeps self.old b image ⊎ ((b ≡ block) × (image ≡ bytes.now)) }
        ensures renewed { IsCached self.old block → Keeps self.new block bytes.now }
        ensures once { IsDistinct nat_eq (keys_of self.old) → IsCached self.old block → (image : List ℕ) → Keeps self.new block image → image ≡ bytes.now }
        ensures others { IsCached self.old block → (b : ℕ) (image : List ℕ) → b ≢ block → Keeps self.old b image → Keeps self.new b image }
    {
        let mut image = [0; BLOCK_BYTES];
        image.copy_from_slice(bytes);
        let _ = self.blocks.put(block, image);
    }

    /// Tells the cache of bytes that were written home, 4,096 of them: it keeps them in place of the block's old ones, if it
    /// kept these.
    pub fn renew(&mut self, block: u32, image: &[u8])
        requires { length image.now ≡ BLOCK_SIZE }
        ensures agrees { (home : List ℕ) → 4096 * (block + 1) ≤ length home → Agrees self.old home → Agrees self.new (put home (4096 * block) image.now) }
        ensures renewed { IsCached self.old block → Keeps self.new block image.now }
        ensures absent { ¬ IsCached self.old block → self.new ≡ self.old }
        ensures others { (b : ℕ) (bytes : List ℕ) → b ≢ block → Keeps self.old b bytes → Keeps self.new b bytes }
    {
        if self.contains(block) {
            self.keep(block, image);
        }
    }

    /// Drops a block, as after a write home that failed.
    pub fn forget(&mut self, block: u32)
        ensures agrees { (home new : List ℕ) → ((b : ℕ) → b ≢ block → block_of new b ≡ block_of home b) → Agrees self.old home → Agrees self.new new }
        ensures gone { ¬ IsCached self.new block }
        ensures others { (b : ℕ) (bytes : List ℕ) → b ≢ block → Keeps self.old b bytes → Keeps self.new b bytes }
    {
        if self.contains(block) {
            let _gone = self.blocks.pop(&block);
        }
    }
}
