//! What frames alone tell of a step is what the world does.

ghost use Rattle.std.specs.Prelude.{◌≡◌, ℕ, Some, slice_get};
ghost use Rattle.xk_types.specs.declared.world.Status.TheVariants as status;
ghost use Rattle.xk_types.specs.Code.{IsWithinLimits, ModuleValue};
ghost use Rattle.xk_types.specs.World.{Activity, World};
ghost use Rattle.xk_types.specs.Step.{step};
ghost use Rattle.xk_types.specs.Schedule.{IsReached};
ghost use Rattle.xk_types.specs.Acceptance.{IsAccepted};
ghost use Rattle.xk_activity.specs.Local.{IsSafe, local};
ghost use Rattle.xk_activity.specs.StepAgreement.{frames_in, Agrees};

/// A running activity's step: where its frames alone tell what they are then, the world's step changes those frames and nothing
/// else, or is wrong; where they tell that it is wrong, so it is; and else others can see it.
pub fn goes_with_steps()
    ensures { (m : ModuleValue) (w : World) (a : ℕ) (act : Activity)
        → slice_get w.activities a ≡ Some act → act.status ≡ status.Running
        → Agrees w a act (local (frames_in m act)) (step m w a) }
{}

/// In each world that a legal schedule of an accepted module reaches, no number of local steps of a running activity is wrong.
pub fn reached_frames()
    ensures { (m : ModuleValue) → IsWithinLimits m → IsAccepted m → (w : World) → IsReached m w
        → (a : ℕ) (act : Activity) → slice_get w.activities a ≡ Some act
        → act.status ≡ status.Running → IsSafe local (frames_in m act) }
{}
