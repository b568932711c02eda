//! Local steps that are computed outside the lock: two workers compute at once, and a gate may be refused memory.

use crate::programs::{TWO_SUMS, accepted, opened};
use std::alloc::{AllocError, AllocGlobal, Global};
use std::sync::Wait;
use std::sync::atomic::{AtomicU64, Ordering};
use std::test::Fail;
use std::thread::{self, Threads};
use xk_activity::{Frames, Ticket, run_local};
use xk_bounds::Verified;
use xk_scheduler::{Ended, Partial};
use xk_types::{Act, Entry};
use xk_workers::{Gate, run_workers};

/// Waits in its first call until a second one has begun, or until it has looked ten million times.
#[derive(Drop)]
struct Meeting {
    begun: AtomicU64,
    met: AtomicU64,
}

impl Meeting {
    /// Looks whether a second call has begun, until one has.
    fn wait(&self) {
        for _ in 0..10_000_000 {
            if self.begun.load(Ordering::SeqCst) > 1 {
                self.met.store(1, Ordering::SeqCst);
                return;
            }
            thread::yield_now();
        }
    }
}

impl Gate for Meeting {
    fn compute<'m>(
        &self,
        alloc: Global,
        _worker: u32,
        act: Act,
        old: Frames<'m>,
        max: u32,
    ) -> Result<Ticket<'m>, (Frames<'m>, AllocError)> {
        if self.begun.fetch_add(1, Ordering::SeqCst) == 0 {
            self.wait();
        }
        run_local(alloc, act, old, max)
    }
}

/// Is refused memory in each call.
#[derive(Clone, Copy)]
struct Refused;

impl Gate for Refused {
    fn compute<'m>(
        &self,
        _alloc: Global,
        _worker: u32,
        _act: Act,
        old: Frames<'m>,
        _max: u32,
    ) -> Result<Ticket<'m>, (Frames<'m>, AllocError)> {
        Err((old, AllocError))
    }
}

/// How many entries and steps a log has.
fn counted(log: &[Entry]) -> (usize, u64) {
    let mut steps = 0u64;
    for entry in log {
        steps = steps.saturating_add(u64::from(entry.steps));
    }
    (log.len(), steps)
}

/// Whether all have ended in a run's answer, and how many entries and steps its log has.
fn answered(answer: &Result<Ended<'_>, Partial<'_>>) -> (bool, (usize, u64)) {
    match answer {
        Ok(ended) => (true, counted(&ended.log)),
        Err(partial) => (partial.core.ended(), counted(&partial.log)),
    }
}

/// A run of two workers by this gate: whether all have ended, and how many entries and steps its log has.
fn by_two<R: AllocGlobal + Threads + Wait + Sync, G: Gate + Sync>(
    rt: &R,
    verified: &Verified,
    gate: &G,
) -> Option<(bool, (usize, u64))> {
    match opened(rt.alloc(), verified, &[]) {
        Ok(start) => Some(answered(&run_workers(rt, rt.alloc(), start, 2, gate))),
        Err(_) => None,
    }
}

/// While one worker computes, another does: neither has the lock then. Each stretch of local steps is one entry.
#[test]
fn workers_compute_at_once(rt: HostRuntime) -> Result<(), Fail> {
    let verified = accepted(rt.alloc(), TWO_SUMS)?;
    let gate = Meeting {
        begun: AtomicU64::new(0),
        met: AtomicU64::new(0),
    };
    let told = by_two(&rt, &verified, &gate);
    assert_eq!(rt; told, Some((true, (7, 11))));
    assert_eq!(rt; gate.met.load(Ordering::SeqCst), 1);
    Ok(())
}

/// A gate that is refused memory ends the run, behind what was done before.
#[test]
fn a_gate_is_refused_memory(rt: HostRuntime) -> Result<(), Fail> {
    let verified = accepted(rt.alloc(), TWO_SUMS)?;
    let told = by_two(&rt, &verified, &Refused);
    assert_eq!(rt; told, Some((false, (1, 1))));
    Ok(())
}
