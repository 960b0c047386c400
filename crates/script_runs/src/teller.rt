//! Threads that write what other threads pass to them, so that no dialogue waits for a reader.

use crate::driving::DriveFault;
use child_serve::ServeFault;
use feed_rings::{Bell, Ringer};
use std::alloc::{AllocError, Global};
use std::sync::atomic::{AtomicBool, Ordering};
use std::sync::{Arc, Mutex, Wait};
use std::thread;
use std::thread::{JoinHandle, Threads};
use std::time::Clock;

/// The longest rest of a teller, in milliseconds.
const REST: u64 = 1_000;

/// The stack size of its thread, in bytes.
const STACK: usize = 262_144;

/// What is passed to a teller.
#[derive(Drop)]
pub struct Post<T: Drop> {
    pub held: Mutex<T>,
    /// Whether nothing more is passed.
    is_over: AtomicBool,
    ringer: Ringer,
}

impl<T: Drop> Post<T> {
    /// Creates a post with these contents, for the teller whose bell this ringer rings.
    fn new(alloc: Global, held: T, ringer: Ringer) -> Result<Arc<Post<T>>, AllocError> {
        let post = Post {
            held: Mutex::new(held),
            is_over: AtomicBool::new(false),
            ringer,
        };
        Ok(Arc::new(alloc, post)?)
    }

    /// Returns whether nothing more is passed.
    pub fn is_over(&self) -> bool {
        self.is_over.load(Ordering::SeqCst)
    }

    /// Wakes the teller, because something was passed.
    pub fn ring(&self) {
        self.ringer.ring();
    }
}

/// Writes what is passed to it.
pub trait Tells<T: Drop> {
    /// Takes the contents and writes them. Returns whether there was something.
    fn tell_next<R: Wait + Clock>(&mut self, rt: &R, post: &Post<T>) -> bool;
}

/// Writes everything that is passed, until nothing more is passed.
fn tell_all<R: Wait + Clock, T: Drop, L: Tells<T>>(
    rt: &R,
    mut tells: L,
    post: &Post<T>,
    bell: &Bell,
) -> L {
    for _ in rt.forever() {
        let is_over = post.is_over();
        if !tells.tell_next(rt, post) {
            if is_over {
                return tells;
            }
            bell.rest_at_most(rt, REST);
        }
    }
    unreachable!()
}

/// A thread that writes.
#[derive(Drop)]
pub struct Teller<T: Drop, L: Drop> {
    pub post: Arc<Post<T>>,
    thread: JoinHandle<L>,
}

impl<T: Send + Drop + 'static, L: Tells<T> + Send + Drop + 'static> Teller<T, L> {
    /// Starts a thread that writes what is passed to it.
    pub fn start<R: Threads + Wait + Clock + Copy + Send + Drop + 'static>(
        rt: R,
        alloc: Global,
        held: T,
        tells: L,
    ) -> Result<Teller<T, L>, DriveFault> {
        let bell = Bell::new(alloc)?;
        let post = Post::new(alloc, held, bell.ringer()?)?;
        let theirs = Arc::try_clone(&post)?;
        let started = thread::Builder::new()
            .stack_size(STACK)
            .spawn(&rt, move || tell_all(&rt, tells, &theirs, &bell));
        match started {
            Ok(thread) => Ok(Teller { post, thread }),
            Err(_) => Err(DriveFault::Serve(ServeFault::NoThread)),
        }
    }

    /// Waits until everything that was passed is written.
    pub fn end<R: Threads>(self, rt: &R) -> L {
        let Teller { post, thread } = self;
        post.is_over.store(true, Ordering::SeqCst);
        post.ring();
        thread.join(rt)
    }
}
