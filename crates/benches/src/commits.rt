//! How fast a store on a file commits and brings blocks home, beside what the file alone takes, how long a read takes beside a
//! commit under way, and how long it takes to open a store whose area is full.
//!
//! Untimed it commits a few blocks and prints the front that it finds; timed it commits many, and prints rates.
ghost use Rattle.std.specs.Prelude.{◌≡◌, ◌+◌, ◌<◌, ◌≤◌, ◌^◌, IfOk, None, true};
ghost use Rattle.gate_journal.specs.Batch.{AreImages};
ghost use Rattle.loans.specs.Rings.{IsOf};
ghost use Rattle.local_store.specs.About.{IsOfVersionTwo};

use crate::report::{now, print_done, repeated, since};
use anyhow::Context;
use bytes::Bytes;
use disk_model::{Disk, DiskError, FileDisk, HalvedDisk};
use gate_journal::{IMAGE_SIZE, Image, Slot};
use home_blocks::{Version, disk_size};
use loans::{Rings, Sides};
use local_store::{CommitWork, Journaled, LendingStore, Loan, Refusal, Store, StoreLike};
use std::alloc::{AllocError, Global};
use std::marker::Brand;
use std::sync::atomic::{AtomicBool, Ordering};
use std::thread::{Threads, join};
use std::time::Duration;
use std::{env, fs, io};
use volume::Geometry;

/// The blocks of the greatest run that is brought home by one call.
const RUN: u32 = 256;

/// The bytes of a batch beside its images.
const HEAD: u32 = 13;

/// The bytes of an image in a batch.
const IMAGE_RECORD: u32 = IMAGE_SIZE as u32 + 4;

/// The number by which the two sides of a loan belong together.
const LENDER: u8 = 0;

/// The reads beside each commit of a few blocks, at least.
const FEW_READS: u32 = 4;

/// The most reads beside a commit, which is done long before them where it has a thread.
const MOST_READS: u32 = 1 << 24;

/// What a file takes alone: so many pieces of so many bytes, each with a sync or two.
#[derive(Clone, Copy)]
struct Alone {
    len: u32,
    pieces: u64,
    twice: bool,
}

/// 1 MiB at a time.
const MEBIBYTES: Alone = Alone {
    len: 1 << 20,
    pieces: 128,
    twice: false,
};

/// The bytes of a batch of 64 images at a time.
const BATCHES: Alone = Alone {
    len: HEAD + 64 * IMAGE_RECORD,
    pieces: 1_024,
    twice: true,
};

/// What a store does: so many commits of so many blocks each, on a volume of so many; and whether it brings their blocks home.
#[derive(Clone, Copy)]
struct Load {
    volume: u32,
    blocks: u32,
    commits: u32,
    /// The bytes of an area.
    area: u32,
    brings_home: bool,
}

/// Commits of 1 MiB, 16 of them in an area.
const LARGE: Load = Load {
    volume: 4_096,
    blocks: 256,
    commits: 128,
    area: 16 * (HEAD + 256 * IMAGE_RECORD) + 1,
    brings_home: true,
};

/// Commits of 64 blocks, 64 of them in an area.
const SMALL: Load = Load {
    volume: 4_096,
    blocks: 64,
    commits: 1_024,
    area: 64 * (HEAD + 64 * IMAGE_RECORD) + 1,
    brings_home: true,
};

/// Those that fill the greatest area.
const FULL: Load = Load {
    volume: 65_536,
    blocks: 1_024,
    commits: 64,
    area: 64 * (HEAD + 1_024 * IMAGE_RECORD) + 1,
    brings_home: false,
};

impl Load {
    /// The load where it is timed, else one of a few blocks.
    fn if_timed(self, timed: bool) -> Load {
        if timed {
            return self;
        }
        Load {
            volume: 257,
            blocks: 4,
            commits: 2,
            area: 2 * (HEAD + 4 * IMAGE_RECORD) + 1,
            brings_home: self.brings_home,
        }
    }
}

/// What commits and the reads beside them came to.
#[derive(Clone, Copy)]
struct Beside {
    /// How many reads are made beside each commit, at least.
    least: u32,
    committing: Duration,
    answered: u32,
    reading: Duration,
    longest: Duration,
}

/// Plays all in a folder that isn't there yet, and removes it. Its name has this number.
pub(crate) fn run<T: Threads>(
    rt: &HostRuntime,
    handle: &T,
    id: u32,
    timed: bool,
) -> anyhow::Result<()> {
    let dir = format!(in rt.alloc(); "/tmp/benches.{id}")?;
    let played = play_in(rt, handle, dir.as_str(), timed);
    drop(dir);
    played
}

/// Plays all in this folder, where the process stands then.
fn play_in<T: Threads>(rt: &HostRuntime, handle: &T, dir: &str, timed: bool) -> anyhow::Result<()> {
    fs::create_dir(rt, dir)?;
    env::set_current_dir(rt, dir)?;
    let played = play(rt, handle, timed);
    let removed = fs::remove_dir_all(rt, dir).context("the folder isn't removed");
    played.and(removed)
}

/// Plays all: the file alone, the stores that bring their blocks home, one that is read meanwhile, and one that is opened with a
/// full area.
fn play<T: Threads>(rt: &HostRuntime, handle: &T, timed: bool) -> anyhow::Result<()> {
    file_alone(rt, "mebibytes", MEBIBYTES, timed)?;
    file_alone(rt, "batches", BATCHES, timed)?;
    commit_all(rt, "large", LARGE, timed)?;
    commit_all(rt, "small", SMALL, timed)?;
    commit_beside_reads(rt, handle, "lending", SMALL, timed)?;
    commit_all(rt, "full", FULL, timed)?;
    open_again(rt, "full", timed)
}

/// Writes pieces into a file, each with a sync, or with one and another behind a byte of it, and prints how long it takes.
fn file_alone(rt: &HostRuntime, name: &str, alone: Alone, timed: bool) -> anyhow::Result<()> {
    let pieces = if timed { alone.pieces } else { 1 };
    let mut disk = FileDisk::create(rt, name, 16 * u64::from(alone.len))?;
    let took = write_alone(rt, &mut disk, alone, pieces);
    drop(disk);
    let (took, len) = (took?, alone.len);
    let syncs = if alone.twice { 2 } else { 1 };
    let done = format_args!("the file alone: {pieces} times {len} bytes with {syncs} syncs");
    Ok(print_done(rt, done, took, timed)?)
}

/// Writes so many pieces: how long it takes.
fn write_alone<D: Disk>(
    rt: &HostRuntime,
    disk: &mut D,
    alone: Alone,
    pieces: u64,
) -> Result<Duration, DiskError> {
    let bytes = repeated(rt.alloc(), 0xa5, alone.len as usize)?;
    let start = now(rt);
    let written = write_pieces(disk, alone, pieces, &bytes);
    let took = since(rt, start);
    drop(bytes);
    written?;
    Ok(took)
}

/// Writes so many pieces, each of these bytes, at sixteen places in turn.
fn write_pieces<D: Disk>(
    disk: &mut D,
    alone: Alone,
    pieces: u64,
    bytes: &[u8],
) -> Result<(), DiskError> {
    for piece in 0..pieces {
        let at = piece % 16 * u64::from(alone.len);
        write_synced(disk, at, bytes)?;
        if alone.twice {
            write_synced(disk, at, &[1])?;
        }
    }
    Ok(())
}

/// Writes bytes, and syncs. 102 where they don't lie within the disk.
fn write_synced<D: Disk>(disk: &mut D, at: u64, bytes: &[u8]) -> Result<(), DiskError>
    requires { at < 2 ^ 36 }
{
    if at + bytes.len() as u64 > disk.len() {
        return Err(DiskError::WriteFault);
    }
    disk.write_at(at, bytes)?;
    disk.sync()
}

/// Makes all commits on a new file, with their blocks brought home in runs, if they are, and prints how long they take.
fn commit_all(rt: &HostRuntime, name: &str, load: Load, timed: bool) -> anyhow::Result<()> {
    let load = load.if_timed(timed);
    let mut store = new_store(rt, name, load)?;
    let took = time_commits(rt, &mut store, load);
    drop(store);
    let (took, commits, blocks) = (took?, load.commits, load.blocks);
    let done = format_args!("{commits} commits of {blocks} blocks");
    Ok(print_done(rt, done, took, timed)?)
}

/// A new store on a new file.
fn new_store(rt: &HostRuntime, name: &str, load: Load) -> anyhow::Result<Store<FileDisk>> {
    let geometry = Geometry::new(load.volume, load.area, 4_096)?;
    let disk = FileDisk::create(rt, name, disk_size(geometry))?;
    match Store::format(rt.alloc(), disk, Slot::new(0).unwrap(), 1, geometry) {
        Ok(store) => Ok(store),
        Err((refusal, disk)) => {
            drop(disk);
            Err(refusal.into())
        }
    }
}

/// Whether a call that writes may be made: the disk is of version 2, and the log is there.
fn is_ready<S: StoreLike>(store: &S) -> bool
    ensures version { result ≡ true → IsOfVersionTwo (S.about store.now) }
    ensures here { result ≡ true → (S.about store.now).lent ≡ None }
{
    match store.version() {
        Version::One => false,
        Version::Two => !store.is_lent(),
    }
}

/// Makes all commits: how long they take.
fn time_commits<S: StoreLike>(
    rt: &HostRuntime,
    store: &mut S,
    load: Load,
) -> Result<Duration, Refusal> {
    let start = now(rt);
    for commit in 0..load.commits {
        commit_one(rt.alloc(), store, load, commit)?;
        settle(store, load, commit)?;
    }
    Ok(since(rt, start))
}

/// Behind a commit: brings its blocks home, if the load does, and makes room for the next one, if there is one.
fn settle<S: StoreLike>(store: &mut S, load: Load, commit: u32) -> Result<(), Refusal> {
    if load.brings_home {
        bring_home(store, load.blocks)?;
    }
    if commit.saturating_add(1) < load.commits {
        return make_room(store, load.blocks);
    }
    Ok(())
}

/// Empties the area, where it has no room for so many blocks.
fn make_room<S: StoreLike>(store: &mut S, blocks: u32) -> Result<(), Refusal> {
    if !is_ready(store) {
        return Err(Refusal::OtherVersion);
    }
    if store.left() < u64::from(blocks).saturating_mul(u64::from(IMAGE_RECORD)) {
        return store.checkpoint();
    }
    Ok(())
}

/// Commits blocks one behind the other, from where the commit before ended.
fn commit_one<S: StoreLike>(
    alloc: Global,
    store: &mut S,
    load: Load,
    commit: u32,
) -> Result<(), Refusal> {
    let images = next_images(alloc, load, commit)?;
    let committed = commit_images(alloc, store, load, u64::from(commit) + 1, &images);
    drop(images);
    committed
}

/// Commits images of a volume of so many blocks.
fn commit_images<S: StoreLike>(
    alloc: Global,
    store: &mut S,
    load: Load,
    front: u64,
    images: &[Image],
) -> Result<(), Refusal>
    requires images { AreImages load.volume images.now }
    requires limit { front < 2 ^ 63 }
{
    if !is_ready(store) || store.geometry().blocks != load.volume {
        return Err(Refusal::OtherVersion);
    }
    let _receipt = store.commit(alloc, front, images)?;
    Ok(())
}

/// Brings the pending blocks home, which are so many at most, in runs.
fn bring_home<S: StoreLike>(store: &mut S, most: u32) -> Result<(), Refusal> {
    for _ in 0..most {
        if !is_ready(store) {
            return Err(Refusal::OtherVersion);
        }
        if store.tick_run(RUN)?.is_none() {
            break;
        }
    }
    Ok(())
}

/// Makes all commits on a new file, each on a thread of its own while blocks are read, and prints how long both take.
fn commit_beside_reads<T: Threads>(
    rt: &HostRuntime,
    handle: &T,
    name: &str,
    load: Load,
    timed: bool,
) -> anyhow::Result<()> {
    let load = load.if_timed(timed);
    let store = new_store(rt, name, load)?;
    let sides = Sides::new(rt.alloc(), LENDER)?;
    let beside = commit_lent::<_, _, Brand>(rt, handle, store, sides, load, timed)?;
    Ok(beside.print(rt, load, timed)?)
}

/// Makes all commits of a store, by the names that were picked for its loans.
fn commit_lent<T: Threads, D: HalvedDisk + Drop + Send, J: Rings + Send>(
    rt: &HostRuntime,
    handle: &T,
    store: Store<D>,
    sides: Sides<Loan<D::Log>>,
    load: Load,
    timed: bool,
) -> Result<Beside, Refusal>
where
    D::Log: Send,
    D::Past: Send,
    requires { IsOf (J.ring sides.number) sides.lender.end }
{
    let (lender, borrower) = sides.named();
    let mut store: LendingStore<D, J> = LendingStore::of(store, lender, borrower);
    let mut beside = Beside::new(if timed { 0 } else { FEW_READS });
    let committed = beside.commit_all(rt, handle, &mut store, load);
    drop(store);
    committed?;
    Ok(beside)
}

impl Beside {
    /// Nothing yet.
    fn new(least: u32) -> Beside {
        Beside {
            least,
            committing: Duration::ZERO,
            answered: 0,
            reading: Duration::ZERO,
            longest: Duration::ZERO,
        }
    }

    /// Makes all commits.
    fn commit_all<T: Threads, D: HalvedDisk + Drop + Send, J: Rings + Send>(
        &mut self,
        rt: &HostRuntime,
        handle: &T,
        store: &mut LendingStore<D, J>,
        load: Load,
    ) -> Result<(), Refusal>
    where
        D::Log: Send,
        D::Past: Send,
    {
        let mut buffer = Vec::new(rt.alloc());
        let mut committed = Ok(());
        for commit in 0..load.commits {
            committed = self.commit_next(rt, handle, store, load, commit, &mut buffer);
            if committed.is_err() {
                break;
            }
        }
        drop(buffer);
        committed
    }

    /// Commits the next blocks, with blocks read meanwhile, and brings them home.
    fn commit_next<T: Threads, D: HalvedDisk + Drop + Send, J: Rings + Send>(
        &mut self,
        rt: &HostRuntime,
        handle: &T,
        store: &mut LendingStore<D, J>,
        load: Load,
        commit: u32,
        buffer: &mut Vec<u8>,
    ) -> Result<(), Refusal>
    where
        D::Log: Send,
        D::Past: Send,
    {
        let images = next_images(rt.alloc(), load, commit)?;
        let start = now(rt);
        let work = lend(rt.alloc(), store, load, u64::from(commit) + 1, &images);
        drop(images);
        self.journal(rt, handle, store, work?, buffer, &AtomicBool::new(false))?;
        self.committing = self.committing.saturating_add(since(rt, start));
        settle(store, load, commit)
    }

    /// Journals a commit on a thread of its own, and reads meanwhile.
    fn journal<T: Threads, D: HalvedDisk + Drop + Send, J: Rings + Send>(
        &mut self,
        rt: &HostRuntime,
        handle: &T,
        store: &mut LendingStore<D, J>,
        work: CommitWork<D::Log, J>,
        buffer: &mut Vec<u8>,
        is_done: &AtomicBool,
    ) -> Result<(), Refusal>
    where
        D::Log: Send,
        D::Past: Send,
    {
        let (done, read) = self.read_beside(rt, handle, store, work, buffer, is_done);
        finish(store, done)?;
        read
    }

    /// Does a job on a thread of its own, and reads meanwhile.
    fn read_beside<T: Threads, S: StoreLike, W: Job + Drop + Send>(
        &mut self,
        rt: &HostRuntime,
        handle: &T,
        store: &mut S,
        work: W,
        buffer: &mut Vec<u8>,
        is_done: &AtomicBool,
    ) -> (W::Done, Result<(), Refusal>)
    where
        W::Done: Drop + Send,
    {
        join(
            handle,
            || {
                let done = work.run(buffer);
                is_done.store(true, Ordering::SeqCst);
                done
            },
            || self.read_until(rt, store, is_done),
        )
    }

    /// Reads blocks in turn until the commit is done.
    fn read_until<S: StoreLike>(
        &mut self,
        rt: &HostRuntime,
        store: &mut S,
        is_done: &AtomicBool,
    ) -> Result<(), Refusal> {
        for read in 0..MOST_READS {
            if read >= self.least && is_done.load(Ordering::SeqCst) {
                break;
            }
            self.read_next(rt, store)?;
        }
        Ok(())
    }

    /// Reads the next block.
    fn read_next<S: StoreLike>(&mut self, rt: &HostRuntime, store: &mut S) -> Result<(), Refusal> {
        let block = self.answered % store.geometry().blocks;
        let mut bytes = [0; IMAGE_SIZE];
        let start = now(rt);
        store.read_block(block, &mut bytes)?;
        self.note(since(rt, start));
        Ok(())
    }

    /// A read has taken so long.
    fn note(&mut self, took: Duration) {
        self.answered = self.answered.saturating_add(1);
        self.reading = self.reading.saturating_add(took);
        self.longest = self.longest.max(took);
    }

    /// Prints what was committed and read, and how fast.
    fn print(self, rt: &HostRuntime, load: Load, timed: bool) -> io::Result<()> {
        let (commits, blocks) = (load.commits, load.blocks);
        if !timed {
            return println!(rt; "{commits} commits of {blocks} blocks beside reads");
        }
        let committing = self.committing.as_micros() / u128::from(commits).max(1);
        let (longest, answered) = (self.longest.as_micros(), self.answered);
        let each = self.reading.as_nanos() / u128::from(answered).max(1);
        let (micros, rest) = (each / 1_000, each % 1_000);
        let a_second = 1_000_000_000 / each.max(1);
        println!(rt;
            "{commits} commits of {blocks} blocks beside reads in {committing} us each, the longest read in {longest} us\nreads beside commits: {answered} answered, {micros}.{rest:03} us each, {a_second} a second"
        )
    }
}

/// What a thread of its own is given to do.
trait Job {
    type Done;

    /// Does it, with a buffer to use.
    fn run(self, buffer: &mut Vec<u8>) -> Self::Done;
}

impl<L: Disk + Drop, J: Rings> Job for CommitWork<L, J> {
    type Done = Journaled<L, J>;

    fn run(self, buffer: &mut Vec<u8>) -> Journaled<L, J> {
        self.journal(buffer)
    }
}

/// Lends out the log, with a commit of images of a volume of so many blocks.
fn lend<D: HalvedDisk + Drop, J: Rings>(
    alloc: Global,
    store: &mut LendingStore<D, J>,
    load: Load,
    front: u64,
    images: &[Image],
) -> Result<CommitWork<D::Log, J>, Refusal>
    requires images { AreImages load.volume images.now }
    requires limit { front < 2 ^ 63 }
{
    let is_of_two = matches!(store.version(), Version::Two);
    if !is_of_two || store.is_lent() || store.geometry().blocks != load.volume {
        return Err(Refusal::OtherVersion);
    }
    store.lend_commit(alloc, front, images)
}

/// Takes the log back. 122 where it isn't the one that was lent.
fn finish<D: HalvedDisk + Drop, J: Rings>(
    store: &mut LendingStore<D, J>,
    done: Journaled<D::Log, J>,
) -> Result<(), Refusal> {
    let mut done = done;
    if !store.is_log_of(&mut done) {
        drop(done);
        return Err(Refusal::Broken);
    }
    let _receipt = store.finish_commit(done)?;
    Ok(())
}

/// The images of blocks one behind the other, from where the commit before ended. 121 where the volume has too few.
fn next_images(alloc: Global, load: Load, commit: u32) -> Result<Vec<Image>, Refusal>
    ensures { IfOk result (λ images. AreImages load.volume images.items) }
{
    if load.blocks == 0 || load.blocks > load.volume {
        return Err(Refusal::Full);
    }
    let places = load.volume / load.blocks;
    if places == 0 {
        return Err(Refusal::Full);
    }
    let first = (commit % places).saturating_mul(load.blocks);
    if first > load.volume - load.blocks {
        return Err(Refusal::Full);
    }
    Ok(images_of(alloc, load.volume, first, load.blocks)?)
}

/// The images of so many blocks, one behind the other.
fn images_of(alloc: Global, volume: u32, first: u32, count: u32) -> Result<Vec<Image>, AllocError>
    requires some { 0 < count }
    requires within { first + count ≤ volume }
    ensures images { IfOk result (λ images. AreImages volume images.items) }
{
    let mut images = Vec::with_capacity(alloc, count as usize)?;
    for index in 0..count {
        let block = first + index;
        let bytes = vec![in alloc; (block % 251) as u8 + 1; IMAGE_SIZE]?;
        images.push(Image::new(block, Bytes::from_vec(bytes)?))?;
    }
    Ok(images)
}

/// Opens the file's store, and prints its front, and how long it took.
fn open_again(rt: &HostRuntime, name: &str, timed: bool) -> anyhow::Result<()> {
    let start = now(rt);
    let store = opened(rt, name)?;
    let took = since(rt, start);
    let front = store.front();
    drop(store);
    Ok(print_done(rt, format_args!("opened at front {front}"), took, timed)?)
}

/// The store on the file.
fn opened(rt: &HostRuntime, name: &str) -> anyhow::Result<Store<FileDisk>> {
    let disk = FileDisk::open(rt, name)?;
    match Store::open(rt.alloc(), disk) {
        Ok(store) => Ok(store),
        Err((refusal, disk)) => {
            drop(disk);
            Err(refusal.into())
        }
    }
}
