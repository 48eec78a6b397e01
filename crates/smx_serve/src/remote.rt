//! How others tell the loop what to do, and learn that it listens.

use crate::pace::TICK;
use mio::Waker;
use smx_config::Config;
use std::rt::Clock;
use std::sync::atomic::{AtomicBool, AtomicU64, Ordering};
use std::sync::{Mutex, Wait};
use std::thread::sleep;
use std::time::Duration;

/// Tells a running proxy what to do, from any thread.
#[derive(Drop)]
pub struct Remote {
    waker: Waker,
    // Whether a thread ends the loop's waits, and whether one was ended for the loop to heed something.
    ticks: AtomicBool,
    calls: AtomicBool,
    // How often it was asked to stop.
    stops: AtomicU64,
    // How all stands is to be told.
    tells: AtomicBool,
    // A configuration was read again, and which.
    reloads: AtomicBool,
    read: Mutex<Option<Config>>,
    // The port where clients connect, and 0 before they can.
    port: AtomicU64,
}

// Whether it was set since this was asked. It is asked in each round, so it writes only where it was.
fn take(mark: &AtomicBool) -> bool {
    mark.load(Ordering::SeqCst) && mark.swap(false, Ordering::SeqCst)
}

impl Remote {
    pub(crate) fn new(waker: Waker) -> Remote {
        Remote {
            waker,
            ticks: AtomicBool::new(false),
            calls: AtomicBool::new(false),
            stops: AtomicU64::new(0),
            tells: AtomicBool::new(false),
            reloads: AtomicBool::new(false),
            read: Mutex::new(None),
            port: AtomicU64::new(0),
        }
    }

    /// Asks it to stop: nobody is let in, no more requests are taken, those under way are awaited, it
    /// unbinds, writes what waits and ends. Asked once more it awaits nothing more.
    pub fn stop(&self) {
        let _ = self.stops.fetch_add(1, Ordering::SeqCst);
        self.wake();
    }

    /// Asks it to say how each upstream and client stands.
    pub fn tell(&self) {
        self.tells.store(true, Ordering::SeqCst);
        self.wake();
    }

    /// Asks it to serve by what may change of this configuration. One that it hasn't come to yet is left
    /// out for it.
    pub fn reload<R: Wait>(&self, rt: &R, config: Config) {
        *self.read.lock(rt) = Some(config);
        self.reloads.store(true, Ordering::SeqCst);
        self.wake();
    }

    // Whether it was asked to say how all stands, since this was asked.
    pub(crate) fn take_telling(&self) -> bool {
        take(&self.tells)
    }

    // The configuration that was read again since this was asked.
    pub(crate) fn take_read<R: Wait>(&self, rt: &R) -> Option<Config> {
        if take(&self.reloads) {
            self.read.lock(rt).take()
        } else {
            None
        }
    }

    // Ends the loop's wait for events, for it to heed what it was asked for or was looked up.
    pub(crate) fn wake(&self) {
        self.calls.store(true, Ordering::SeqCst);
        let _ = self.waker.wake();
    }

    // Whether it is to heed something, since this was asked.
    pub(crate) fn take_call(&self) -> bool {
        take(&self.calls)
    }

    /// Ends the loop's wait for events each 100 milliseconds while clients can connect, for a thread of its own:
    /// it doesn't return. Without such a thread the loop limits each wait, for which the system sets a timer each
    /// time.
    pub fn tick<R: Clock>(&self, rt: &R) {
        self.ticks.store(true, Ordering::SeqCst);
        for _ in 0..u64::MAX {
            sleep(rt, Duration::from_millis(TICK));
            if self.is_listening() {
                let _ = self.waker.wake();
            }
        }
    }

    // How many milliseconds the loop waits at most, where nobody ends its waits.
    pub(crate) fn limit(&self) -> Option<u64> {
        if self.ticks.load(Ordering::SeqCst) {
            None
        } else {
            Some(TICK)
        }
    }

    /// Whether it was asked to.
    pub fn is_stopping(&self) -> bool {
        self.stops.load(Ordering::SeqCst) > 0
    }

    // Whether it was asked to more than once.
    pub(crate) fn is_hurried(&self) -> bool {
        self.stops.load(Ordering::SeqCst) > 1
    }

    pub(crate) fn listen(&self, port: u16) {
        self.port.store(u64::from(port), Ordering::SeqCst);
    }

    /// Whether clients can connect.
    pub fn is_listening(&self) -> bool {
        self.port() > 0
    }

    /// The port where clients connect, which the system chose where the configuration says 0. It is 0
    /// before they can.
    pub fn port(&self) -> u64 {
        self.port.load(Ordering::SeqCst)
    }
}
