//! Worker threads.

ghost use Rattle.std.specs.Prelude.{◌≡◌, ◌≤◌, true, false, IfOk, IfErr};
ghost use Rattle.std.specs.Bool.{Decides};
ghost use Rattle.xk_types.specs.Schedule.{all_ended};
ghost use Rattle.xk_workers.specs.LockTable.{AreAlike, IsSettled, GoesOn};
ghost use Rattle.xk_workers.specs.WorkerTurn.{CanCompute, HandsIn, Turns};
ghost use Rattle.xk_workers.specs.Workers.{most_workers};

use crate::gate::Gate;
use crate::lock_table::{CommitFault, Shared, Take};
use std::alloc::{AllocError, Global};
use std::sync::{Condvar, Mutex, Wait};
use std::thread;
use std::thread::Threads;
use xk_activity::{Frames, Ticket};
use xk_core::Core;
use xk_scheduler::{Ended, First, Partial, drive, unstarted};
use xk_types::Act;

/// How many local steps a worker computes at once, at most.
const MOST_LOCAL_STEPS: u32 = 65_536;

/// What all workers have beside the machine: memory, how local steps are computed, and where they wait for each other.
#[derive(Clone, Copy)]
struct Desk<'a, G> {
    alloc: Global,
    gate: &'a G,
    changed: &'a Condvar,
}

/// What came of a worker's turn under the lock.
#[derive(Drop)]
pub enum Turned<'m> {
    /// Local steps of the activity, which is claimed and has these frames, are to be computed.
    Works(Act, Frames<'m>),
    /// Something was done.
    Acted,
    /// It is to wait for the others.
    Waits,
    /// There is nothing more to do.
    Over,
}

/// A worker's turn under the lock: it does what it is told, or takes the frames with it from which it is to compute local steps.
fn turn<'m>(shared: &mut Shared<'m>) -> Turned<'m>
    ensures can { CanCompute result }
    ensures turned { Turns shared.old result shared.new }
{
    match shared.take() {
        Take::Work(act) => match shared.copy(act) {
            Ok(frames) => Turned::Works(act, frames),
            Err(_) => {
                shared.give_up(act);
                Turned::Acted
            }
        },
        Take::Act(act) => {
            if shared.act(act).is_err() {
                shared.stop();
            }
            Turned::Acted
        }
        Take::Idle => Turned::Waits,
        Take::Done | Take::Stopped => Turned::Over,
    }
}

/// Hands in what came of the activity's local steps, under the lock.
fn hand_in<'m>(
    shared: &mut Shared<'m>,
    act: Act,
    answer: Result<Ticket<'m>, (Frames<'m>, AllocError)>,
)
    ensures { HandsIn shared.old act answer.entry shared.new }
{
    match answer {
        Ok(ticket) => {
            if let Err(CommitFault::OutOfMemory) = shared.commit(ticket) {
                shared.stop();
            }
        }
        Err(_) => shared.give_up(act),
    }
}

/// A worker: takes its turns until there is nothing more to do, computes local steps outside the lock, and sleeps while it has to wait
/// for others.
fn work<R: Wait, G: Gate>(rt: &R, desk: &Desk<'_, G>, board: &Mutex<Shared<'_>>, worker: u32) {
    for _ in rt.forever() {
        let mut shared = board.lock(rt);
        match turn(&mut *shared) {
            Turned::Works(act, frames) => {
                drop(shared);
                let most = MOST_LOCAL_STEPS;
                let answer = desk.gate.compute(desk.alloc, worker, act, frames, most);
                hand_in(&mut *board.lock(rt), act, answer);
                desk.changed.notify_all();
            }
            Turned::Acted => desk.changed.notify_all(),
            Turned::Waits => drop(desk.changed.wait(rt, shared)),
            Turned::Over => return,
        }
    }
}

/// Lets this many workers loose on the machine, of which the calling thread is one. Where a thread can't be started there are fewer.
fn worked<'m, R: Threads + Wait + Sync, G: Gate + Sync>(
    rt: &R,
    alloc: Global,
    shared: Shared<'m>,
    workers: u32,
    gate: &G,
) -> Shared<'m> {
    let board = Mutex::new(shared);
    let changed = Condvar::new();
    let desk = Desk {
        alloc,
        gate,
        changed: &changed,
    };
    let (lock, all) = (&board, &desk);
    thread::scope(thread::scope_env(), rt, |scope| {
        for worker in 1..workers {
            if scope.spawn(move || work(rt, all, lock, worker)).is_err() {
                break;
            }
        }
        work(rt, all, lock, 0);
    });
    board.into_inner()
}

/// Whether these numbers are the same.
fn are_same_numbers(a: &[i64], b: &[i64]) -> bool
    ensures { Decides result (a.now ≡ b.now) }
{
    a == b
}

/// Whether the workers' module is that of the core, and main was given the same.
fn is_same(shared: &Shared<'_>, core: &Core<'_>) -> bool
    ensures { Decides result (AreAlike shared.now.run.core core.now) }
{
    *shared.core().module().module() == *core.module().module()
        && are_same_numbers(shared.core().arguments(), core.arguments())
}

/// Whether the workers' run is the answer: it is one of the core's module with its arguments, and all have ended, or the workers were told
/// to stop.
fn is_answer(shared: &Shared<'_>, core: &Core<'_>) -> bool
    ensures same { result ≡ true → AreAlike shared.now.run.core core.now }
    ensures left_off { result ≡ true → GoesOn shared.now → ⊥ }
    ensures none { result ≡ false → AreAlike shared.now.run.core core.now → GoesOn shared.now }
{
    is_same(shared, core) && !shared.goes_on()
}

/// The answer that the workers came to, or the one of the least activity first, on a core that was kept aside: where the workers' module
/// or its arguments are others, or where they left off though nobody was refused memory.
fn settle<'m>(alloc: Global, shared: Shared<'m>, aside: Core<'m>) -> Result<Ended<'m>, Partial<'m>>
    requires { aside.world.steps ≡ 0 }
    ensures same_module { IfOk result (λ e. e.module.now ≡ aside.entry.module_run) }
    ensures partial_same_module { IfErr result
        (λ p. p.module.now ≡ aside.entry.module_run) }
    ensures same_arguments { IfOk result
        (λ e. e.core.world.arguments ≡ aside.entry.world.arguments) }
    ensures partial_same_arguments { IfErr result
        (λ p. p.core.world.arguments ≡ aside.entry.world.arguments) }
    // Somebody could still take a step.
    ensures partial_goes_on { IfErr result (λ p. all_ended p.core.world ≡ false) }
    ensures settled { IsSettled shared.entry aside.entry result }
{
    if is_answer(&shared, &aside) {
        return shared.close();
    }
    drop(shared);
    drive(alloc, aside, &mut First)
}

/// Runs a core, from before its first step, by 1 to 64 worker threads under one lock, the calling thread among them; where a thread can't
/// be started there are fewer. More than 64 would only wait for the lock. Steps that others can see are taken under the lock; local ones
/// are computed outside it by the gate, and handed in. Ok where all activities have ended, and Err where memory was refused. Whatever the workers do, the log in the answer
/// stands for a legal schedule of the module that leads to the core in the answer, as the types of the answers keep.
pub fn run_workers<'m, R: Threads + Wait + Sync, G: Gate + Sync>(
    rt: &R,
    alloc: Global,
    start: Core<'m>,
    workers: u32,
    gate: &G,
) -> Result<Ended<'m>, Partial<'m>>
    requires some { 1 ≤ workers }
    requires few { workers ≤ most_workers }
    requires fresh { start.world.steps ≡ 0 }
    ensures same_module { IfOk result (λ e. e.module.now ≡ start.entry.module_run) }
    ensures partial_same_module { IfErr result
        (λ p. p.module.now ≡ start.entry.module_run) }
    ensures same_arguments { IfOk result
        (λ e. e.core.world.arguments ≡ start.entry.world.arguments) }
    ensures partial_same_arguments { IfErr result
        (λ p. p.core.world.arguments ≡ start.entry.world.arguments) }
    // Somebody could still take a step.
    ensures partial_goes_on { IfErr result (λ p. all_ended p.core.world ≡ false) }
{
    let Ok(aside) = Core::open(alloc, start.module(), start.arguments()) else {
        return Err(unstarted(alloc, start));
    };
    let shared = worked(rt, alloc, Shared::open(alloc, start), workers, gate);
    settle(alloc, shared, aside)
}
