//! One registration after the other.

ghost use Rattle.std.specs.Prelude.{◌≡◌, ℕ, ◌<◌, [], ◌∷◌, length, All};
ghost use Rattle.std.specs.List.{find};
ghost use Rattle.xk_registrations.specs.View.{AreDistinct, reg_on};
ghost use Rattle.xk_registrations.specs.RegistrationChanges.{concerns, calls, call_resume, call_drop, call_register, regs_open, regs_on, regs_resumed, regs_passed, reg_resumed, phase_at, is_signalled_in, OwesResume, OwesDrop, OwesRegister, AreAllowed, AreAllowedInTurn};

use crate::affected_clocks::Which;
use crate::clocks::Clocks;
use crate::registration::Registration;
use xk_types::{ClockId, Standing};

/// Resumes one registration in the step of this number, if it is open and on a clock that the step concerns.
fn resume_one(registration: &mut Registration, which: &Which, clocks: &mut Clocks, now: u64)
    requires { AreAllowedInTurn OwesResume call_resume
        (regs_open (concerns which.now) (registration.old ∷ [])) clocks.old.table.clocks }
    ensures registration { registration.new
        ≡ reg_resumed (concerns which.now) registration.old clocks.old.table.clocks }
    ensures clocks { clocks.new ≡ calls now call_resume
        (regs_open (concerns which.now) (registration.old ∷ [])) clocks.old }
{
    let clock = registration.clock();
    if which.concerns(clock) && registration.is_open() {
        let phase = clocks.phase(clock);
        clocks.resume(*registration, now);
        registration.resume(phase);
    }
}

/// Resumes those on clocks that the step concerns, each that is open in the present phase of its clock.
pub fn resume_each(registrations: &mut [Registration], which: &Which, clocks: &mut Clocks, now: u64)
    requires distinct { AreDistinct registrations.old }
    requires allowed { AreAllowed OwesResume clocks.old.table.clocks
        (regs_open (concerns which.now) registrations.old) }
    ensures registrations { registrations.new
        ≡ regs_resumed (concerns which.now) (phase_at clocks.old.table.clocks) registrations.old }
    ensures clocks { clocks.new
        ≡ calls now call_resume (regs_open (concerns which.now) registrations.old) clocks.old }
{
    for i in 0..registrations.len() {
        resume_one(&mut registrations[i], which, clocks, now);
    }
}

/// The registrations after a pass of their activity: all open.
pub fn pass_each(registrations: &mut [Registration])
    ensures { registrations.new ≡ regs_passed registrations.old }
{
    for i in 0..registrations.len() {
        registrations[i] = registrations[i].passed();
    }
}

/// The registration on this clock, if there is one.
pub fn find_on(registrations: &[Registration], clock: ClockId) -> Option<Registration>
    ensures { result ≡ reg_on registrations.now clock }
{
    for registration in registrations {
        if registration.clock().0 == clock.0 {
            return Some(*registration);
        }
    }
    None
}

/// The clocks take in an activity that begins with these.
pub fn register_each(registrations: &[Registration], clocks: &mut Clocks)
    requires distinct { AreDistinct registrations.now }
    requires allowed { AreAllowed OwesRegister clocks.old.table.clocks registrations.now }
    ensures { (now : ℕ) → clocks.new ≡ calls now call_register registrations.now clocks.old }
{
    for i in 0..registrations.len() {
        clocks.register(registrations[i]);
    }
}

/// Drops one registration in the step of this number, if it is on a clock that the step concerns.
fn drop_one(registration: Registration, which: &Which, clocks: &mut Clocks, now: u64)
    requires { AreAllowedInTurn OwesDrop call_drop
        (regs_on (concerns which.now) (registration ∷ [])) clocks.old.table.clocks }
    ensures { clocks.new
        ≡ calls now call_drop (regs_on (concerns which.now) (registration ∷ [])) clocks.old }
{
    if which.concerns(registration.clock()) {
        clocks.drop(registration, now);
    }
}

/// Drops those on clocks that the step concerns.
pub fn drop_each(registrations: &[Registration], which: &Which, clocks: &mut Clocks, now: u64)
    requires distinct { AreDistinct registrations.now }
    requires allowed { AreAllowed OwesDrop clocks.old.table.clocks
        (regs_on (concerns which.now) registrations.now) }
    ensures { clocks.new
        ≡ calls now call_drop (regs_on (concerns which.now) registrations.now) clocks.old }
{
    for i in 0..registrations.len() {
        drop_one(registrations[i], which, clocks, now);
    }
}

/// Whether it reads as signalled in the present phase of its clock.
fn is_signalled_now(registration: Registration, clocks: &Clocks) -> bool
    requires { registration.clock < length clocks.now.table.clocks }
    ensures { result ≡ is_signalled_in clocks.now.table.clocks registration }
{
    let phase = clocks.phase(registration.clock());
    matches!(registration.standing(phase), Standing::Signalled)
}

/// The first of them that reads as signalled, each in the present phase of its clock.
pub fn find_signalled(registrations: &[Registration], clocks: &Clocks) -> Option<Registration>
    requires { All (λ r. r.clock < length clocks.now.table.clocks) registrations.now }
    ensures { result ≡ find (is_signalled_in clocks.now.table.clocks) registrations.now }
{
    for i in 0..registrations.len() {
        if is_signalled_now(registrations[i], clocks) {
            return Some(registrations[i]);
        }
    }
    None
}
