//! Files whose syncs were begun, which threads make while the program goes on.
ghost use Rattle.std.specs.Prelude.{◌≡◌, ◌≤◌, ◌<◌, ◌⊎◌, [], None, IsErr, IsSome, length};
ghost use Rattle.cv_real.specs.declared.begun.TheConstants.{GROUP_SIZE, THREAD_LIMIT};

use std::alloc::Global;
use std::fs::File;
use std::thread::{Promise, PromisedHandle, Threads, spawn_with};
use std::{io, mem};

/// How many files a thread syncs, one after another.
pub const GROUP_SIZE: usize = 8;

/// How many threads are at it at most. With the files that no thread has yet, 136 files are open at most: a process may have few
/// open at once.
pub const THREAD_LIMIT: usize = 16;

/// What a thread promises of its answer: nothing, since nothing is known of a disk.
#[derive(Drop)]
pub struct Untold;

impl Promise<io::Result<()>> for Untold {
    ghost kept_by = { λ p answer. Unit {0} };
}

/// The files whose syncs were begun and aren't ended yet.
#[derive(Drop)]
pub struct BegunSyncs {
    alloc: Global,
    /// Files that no thread has yet.
    waiting: Vec<File>,
    /// The threads in the order of their starts. Each answers how the syncs of its files came out.
    threads: Vec<PromisedHandle<io::Result<()>, Untold>>,
    /// The error of a sync that failed since the last end.
    failed: Option<io::Error>,
}

/// Syncs each of these files, and answers an error where one failed.
fn sync_each(files: &[File]) -> io::Result<()> {
    let mut all = Ok(());
    for file in files {
        all = all.and(file.sync_all());
    }
    all
}

impl BegunSyncs {
    /// None was begun yet.
    pub fn new(alloc: Global) -> BegunSyncs
        ensures waiting { result.waiting.items ≡ [] }
        ensures threads { result.threads.items ≡ [] }
        ensures failed { result.failed ≡ None }
    {
        BegunSyncs {
            alloc,
            waiting: Vec::new(alloc),
            threads: Vec::new(alloc),
            failed: None,
        }
    }

    /// Keeps the error of syncs that came out so.
    fn note(&mut self, synced: io::Result<()>)
        ensures failed { IsSome self.old.failed ⊎ IsErr synced → IsSome self.new.failed }
        ensures waiting { self.new.waiting ≡ self.old.waiting }
        ensures threads { self.new.threads ≡ self.old.threads }
    {
        if let Err(error) = synced {
            self.failed = Some(error);
        }
    }

    /// Waits for the thread that was started first, where all threads are at work.
    fn make_room<R: Threads>(&mut self, rt: &R)
        ensures failed { IsSome self.old.failed → IsSome self.new.failed }
        ensures waiting { self.new.waiting ≡ self.old.waiting }
        ensures threads { length self.old.threads.items ≤ THREAD_LIMIT
            → length self.new.threads.items < THREAD_LIMIT }
    {
        if self.threads.len() >= THREAD_LIMIT {
            let first = self.threads.remove(0);
            self.note(first.join(rt));
        }
    }

    /// Keeps a thread, or waits for it where there is no memory for that.
    fn keep<R: Threads>(&mut self, rt: &R, thread: PromisedHandle<io::Result<()>, Untold>)
        ensures failed { IsSome self.old.failed → IsSome self.new.failed }
        ensures waiting { self.new.waiting ≡ self.old.waiting }
        ensures threads { length self.old.threads.items < THREAD_LIMIT
            → length self.new.threads.items ≤ THREAD_LIMIT }
    {
        if let Err(refused) = self.threads.push(thread) {
            self.note(refused.value.join(rt));
        }
    }

    /// Has a thread sync the files that wait, or syncs them where none can be started.
    fn hand_over<R: Threads>(&mut self, rt: &R)
        ensures failed { IsSome self.old.failed → IsSome self.new.failed }
        ensures waiting { self.new.waiting.items ≡ [] }
        ensures threads { length self.old.threads.items ≤ THREAD_LIMIT
            → length self.new.threads.items ≤ THREAD_LIMIT }
    {
        let files = mem::replace(&mut self.waiting, Vec::new(self.alloc));
        self.make_room(rt);
        match spawn_with(rt, Untold, move || sync_each(files.as_slice())) {
            Ok(thread) => self.keep(rt, thread),
            Err(refused) => {
                let sync = refused.value;
                self.note(sync());
            }
        }
    }

    /// Begins the sync of a file. Where there is no memory for the file its sync is made at once.
    pub fn begin<R: Threads>(&mut self, rt: &R, file: File) -> io::Result<()>
        ensures failed { IsSome self.old.failed → IsSome self.new.failed }
        ensures waiting { length self.old.waiting.items < GROUP_SIZE
            → length self.new.waiting.items < GROUP_SIZE }
        ensures threads { length self.old.threads.items ≤ THREAD_LIMIT
            → length self.new.threads.items ≤ THREAD_LIMIT }
    {
        if let Err(refused) = self.waiting.push(file) {
            return refused.value.sync_all();
        }
        if self.waiting.len() >= GROUP_SIZE {
            self.hand_over(rt);
        }
        Ok(())
    }

    /// Waits for the threads that are at work.
    fn join_all<R: Threads>(&mut self, rt: &R)
        ensures failed { IsSome self.old.failed → IsSome self.new.failed }
        ensures waiting { self.new.waiting ≡ self.old.waiting }
        ensures threads { self.new.threads.items ≡ [] }
    {
        while let Some(thread) = self.threads.pop() {
            self.note(thread.join(rt));
        }
    }

    /// Ends the syncs that were begun: none is at work or waits behind it. It fails where one that was begun since the last end
    /// failed.
    pub fn end<R: Threads>(&mut self, rt: &R) -> io::Result<()>
        ensures waiting { self.new.waiting.items ≡ [] }
        ensures threads { self.new.threads.items ≡ [] }
        ensures fails { IsSome self.old.failed → IsErr result }
        ensures once { self.new.failed ≡ None }
    {
        if !self.waiting.is_empty() {
            self.hand_over(rt);
        }
        self.join_all(rt);
        match self.failed.take() {
            Some(error) => Err(error),
            None => Ok(()),
        }
    }
}
