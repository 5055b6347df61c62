//! The images that are in the current area and not yet home.
ghost use Rattle.std.specs.Prelude.{◌≡◌, ℕ, ◌+◌, ◌-◌, ◌*◌, ◌<◌, ◌≤◌, Option, Some, None, unwrap_or, All, List, length, replicate, set, IfOk, OnOk, IfSome, IfNone, option_map, ◌↔◌, ◌^◌};
ghost use Rattle.flusher.specs.Plan.{IsNext, IsPending, IsRun, IsWithin, NonePending};
ghost use Rattle.gate_journal.specs.Image.{Image as Imaged};
ghost use Rattle.local_store.specs.Pending.{AreCleared, AreJoined, held, with_all_pending, with_pending};
ghost use Rattle.volume.specs.Writes.{block_of};

use flusher::{Plan, Run};
use gate_journal::{Batch, Image};
use std::alloc::{AllocError, Global};
use std::marker::Model;
use volume::BLOCK_SIZE;

/// The bytes of a block.
pub type Block = [u8; BLOCK_SIZE as usize];

/// The pending images by block: a place for each block of the volume, so that an image that is made takes no more memory. They
/// share the bytes of what was committed.
#[derive(Debug, Drop)]
pub(crate) struct Pending {
    images: Vec<Option<Image>>,
    /// None is pending: nobody has to look.
    none: bool,
}

impl Model for Pending {
    ghost use Rattle.std.specs.Prelude.{◌≡◌, Option, List, ℕ, map, option_map, true};

    ghost Value = { List (Option (List ℕ)) };

    ghost use Rattle.flusher.specs.Plan.{IsPending, NonePending};

    ghost view = { λ p. map (option_map (λ image. image.bytes)) p.images.items };

    ghost invariant = { λ p. p.none ≡ true → NonePending (IsPending p.images.items) };
}

/// Clones of images, to be pending.
pub(crate) fn stage(alloc: Global, images: &[Image]) -> Result<Vec<Image>, AllocError>
    ensures { IfOk result (λ staged. staged.items ≡ images.now) }
{
    let mut staged = Vec::with_capacity(alloc, images.len())?;
    for image in images {
        staged.push(image.clone()?)?;
    }
    Ok(staged)
}

impl Pending {
    /// None of so many blocks.
    pub(crate) fn new(alloc: Global, blocks: u32) -> Result<Pending, AllocError>
        ensures { IfOk result (λ pending. pending ≡ replicate blocks None) }
    {
        let mut images = Vec::with_capacity(alloc, blocks as usize)?;
        for _ in 0..blocks {
            images.push(None)?;
        }
        Ok(Pending {
            images,
            none: false,
        })
    }

    /// The images of these batches, of so many blocks.
    pub(crate) fn of(alloc: Global, blocks: u32, batches: &[Batch]) -> Result<Pending, AllocError>
        requires { All (λ batch. All (λ image. image.block < blocks) batch.images) batches.now }
        ensures { IfOk result (λ pending. pending ≡ with_all_pending (replicate blocks None) batches.now) }
    {
        let mut pending = Pending::new(alloc, blocks)?;
        for batch in batches {
            let staged = stage(alloc, batch.images())?;
            pending.keep(staged);
        }
        Ok(pending)
    }

    /// The pending image of the block, if there is one.
    pub(crate) fn get(&self, block: u32) -> Option<&Image>
        ensures { option_map (λ image. image.now.bytes) result ≡ held self.now block }
    {
        self.images.get(block as usize)?.as_ref()
    }

    /// Puts the pending images of a run of blocks over their places in these bytes of it.
    pub(crate) fn put_over(&self, first: u32, count: u32, bytes: &mut [u8])
        requires within { first + count < 2 ^ 32 }
        requires whole { length bytes.old ≡ 4096 * count }
        ensures size { length bytes.new ≡ length bytes.old }
        ensures blocks { (i : ℕ) → i < count → block_of bytes.new i ≡ unwrap_or (held self.now (first + i)) (block_of bytes.old i) }
    {
        for i in 0..count {
            if let Some(image) = self.get(first + i) {
                let start = i as usize * BLOCK_SIZE as usize;
                image.copy_to(&mut bytes[start..start + BLOCK_SIZE as usize]);
            }
        }
    }

    /// The next pending block, by the plan. That none is pending is looked up once, until an image is put in.
    pub(crate) fn next(&mut self, plan: &mut Plan) -> Option<u32>
        requires { length self.old < 2 ^ 32 }
        ensures next { IfSome result (IsNext plan.old (IsPending self.old)) }
        ensures given { IfSome result (λ block. plan.new ≡ Some block) }
        ensures within { IfSome result (λ block. block < length self.old) }
        ensures none { (result ≡ None) ↔ NonePending (IsPending self.old) }
        ensures unchanged { IfNone result (plan.new ≡ plan.old) }
        ensures same { self.new ≡ self.old }
    {
        if self.none {
            return None;
        }
        let block = plan.next(&self.images);
        self.none = block.is_none();
        block
    }

    /// The next run of pending blocks, by the plan. That none is pending is looked up once, until an image is put in.
    pub(crate) fn next_run(&mut self, plan: &mut Plan, most: u32) -> Option<Run>
        requires size { length self.old < 2 ^ 32 }
        requires some { 0 < most }
        ensures next { IfSome result (λ run. IsNext plan.old (IsPending self.old) run.first) }
        ensures run { IfSome result (λ run. IsRun most (IsPending self.old) run.first run.count) }
        ensures given { IfSome result (λ run. plan.new ≡ Some (run.first + run.count - 1)) }
        ensures none { (result ≡ None) ↔ NonePending (IsPending self.old) }
        ensures unchanged { IfNone result (plan.new ≡ plan.old) }
        ensures same { self.new ≡ self.old }
    {
        if self.none {
            return None;
        }
        let run = plan.next_run(&self.images, most);
        self.none = run.is_none();
        run
    }

    /// Puts the images of a run of pending blocks into a buffer, one behind the other, in place of what it held.
    pub(crate) fn join(
        &self,
        first: u32,
        count: u32,
        buffer: &mut Vec<u8>,
    ) -> Result<(), AllocError>
        requires within { first + count < 2 ^ 32 }
        requires pending { (b : ℕ) → IsWithin first count b → IsPending self.now b }
        ensures { OnOk result (AreJoined self.now first count buffer.new.items) }
    {
        buffer.resize(count as usize * BLOCK_SIZE as usize, 0)?;
        self.put_over(first, count, buffer);
        Ok(())
    }

    /// The staged images are pending from now on.
    #[tactic(auto, using(crate::proofs::Places::one_more))]
    pub(crate) fn keep(&mut self, staged: Vec<Image>)
        requires { All (λ image. image.block < length self.old) staged.items }
        ensures { self.new ≡ with_pending self.old staged.items }
    {
        for image in staged {
            self.put(image);
        }
    }

    /// The staged image is pending from now on.
    #[tactic(auto, using(crate::proofs::Places::shown_set))]
    fn put(&mut self, image: Image)
        requires { image.block < length self.old }
        ensures { self.new ≡ set self.old image.block (Some image.bytes) }
    {
        let at = image.block() as usize;
        self.images[at] = Some(image);
        self.none = false;
    }

    /// The block is home.
    #[tactic(auto, using(crate::proofs::Places::shown_unset))]
    pub(crate) fn drop_block(&mut self, block: u32)
        requires { block < length self.old }
        ensures { self.new ≡ set self.old block None }
    {
        self.images[block as usize] = None;
    }

    /// The blocks of a run are home.
    pub(crate) fn drop_run(&mut self, first: u32, count: u32)
        requires size { length self.old < 2 ^ 32 }
        requires within { first + count ≤ length self.old }
        ensures { AreCleared first count self.old self.new }
    {
        for i in 0..count {
            self.drop_block(first + i);
        }
    }
}
