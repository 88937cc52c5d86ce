//! Bells: a place for each connection, then one for the dispatcher.
ghost use Rattle.std.specs.Prelude.{◌≡◌, ◌+◌, ◌<◌, IfOk, vec_len};

use crate::wakes::Wakes;
use iso_types::{Conn, Memory};
use std::alloc::Global;
use std::sync::{Condvar, Mutex, Wait};

/// Whether it was rung since the last rest here.
#[derive(Drop)]
struct Bell {
    rung: Mutex<bool>,
    changed: Condvar,
}

/// A bell at each place.
#[derive(Drop)]
pub struct Bells {
    places: Vec<Bell>,
}

impl Bell {
    // Where it was rung before, its sleeper has been woken.
    fn ring<R: Wait>(&self, rt: &R) {
        let mut rung = self.rung.lock(rt);
        if !*rung {
            *rung = true;
            self.changed.notify_one();
        }
    }
}

impl Wakes {
    /// Whether the bell at a place is meant: the dispatcher's, the last, or that of a connection.
    fn means(self, at: usize, last: usize) -> bool {
        if at >= last {
            return self.leads;
        }
        at < 32 && self.conns.has(Conn(at as u8))
    }
}

impl Bells {
    /// A place for each connection, then one for the dispatcher.
    pub fn new(alloc: Global, conns: u8) -> Result<Bells, Memory>
        ensures { IfOk result (λ b. vec_len b.places ≡ conns + 1) }
    {
        let count = usize::from(conns) + 1;
        let mut places = Vec::with_capacity(alloc, count)?;
        for _ in 0..count {
            places.push(Bell {
                rung: Mutex::new(false),
                changed: Condvar::new(),
            })?;
        }
        Ok(Bells { places })
    }

    /// Rings at every place. It may wait.
    pub fn ring<R: Wait>(&self, rt: &R) {
        for bell in self.places.as_slice() {
            bell.ring(rt);
        }
    }

    /// Rings at the places of those who are meant; the dispatcher's is the last. No memory. It may wait. (This project's own.)
    pub fn ring_for<R: Wait>(&self, rt: &R, wakes: Wakes) {
        if !wakes.means_any() {
            return;
        }
        let bells = self.places.as_slice();
        for at in 0..bells.len() {
            if wakes.means(at, bells.len() - 1) {
                bells[at].ring(rt);
            }
        }
    }

    /// Waits for a ring at this place; one since the last rest here is enough.
    pub fn rest<R: Wait>(&self, rt: &R, at: u8)
        requires { at < vec_len self.now.places }
    {
        let bell = &self.places[usize::from(at)];
        let mut rung = bell
            .changed
            .wait_while(rt, bell.rung.lock(rt), |rung| !*rung);
        *rung = false;
    }
}
