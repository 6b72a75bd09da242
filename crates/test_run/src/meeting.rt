//! A gate at which two clients wait for each other.
use cod_run::{Gate, Point};
use crossbeam_queue::ArrayQueue;
use std::alloc::{AllocError, Global};
use std::sync::Wait;
use std::sync::atomic::{AtomicBool, Ordering};
use std::thread;

/// How often a held call looks for what it waits for, at most.
const LOOKS: u32 = 10_000_000;

/// Holds the second client's first call until the first client's second call has had two events, and holds that one until the
/// second client's second call has begun: so the held read is asked and answered between two events of that call.
#[derive(Drop)]
pub(crate) struct Meeting<'a, R> {
    rt: &'a R,
    is_halfway: AtomicBool,
    is_answered: AtomicBool,
    /// The points at which a call was held in vain.
    in_vain: ArrayQueue<Point>,
}

impl<'a, R: Wait> Meeting<'a, R> {
    pub(crate) fn new(rt: &'a R, alloc: Global) -> Result<Meeting<'a, R>, AllocError> {
        Ok(Meeting {
            rt,
            is_halfway: AtomicBool::new(false),
            is_answered: AtomicBool::new(false),
            in_vain: ArrayQueue::new(alloc, 2)?,
        })
    }

    /// Whether both calls went on because they had met.
    pub(crate) fn has_been(&self) -> bool {
        self.in_vain.pop(self.rt).is_none()
    }

    /// Holds a call until the flag is set, or notes its point.
    fn hold(&self, flag: &AtomicBool, point: Point) {
        for _ in 0..LOOKS {
            if flag.load(Ordering::SeqCst) {
                return;
            }
            thread::yield_now();
        }
        let _ = self.in_vain.push(self.rt, point);
    }
}

impl<R: Wait> Gate for Meeting<'_, R> {
    fn pause(&self, point: Point) {
        match (point.caller.0, point.number, point.events) {
            (0, 1, 2) => {
                self.is_halfway.store(true, Ordering::SeqCst);
                self.hold(&self.is_answered, point);
            }
            (1, 0, 0) => self.hold(&self.is_halfway, point),
            (1, 1, 0) => self.is_answered.store(true, Ordering::SeqCst),
            _ => {}
        }
    }
}
