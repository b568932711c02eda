//! The turn of whom an answer names.

ghost use Rattle.std.specs.Prelude.{◌≡◌, ◌+◌, ◌≤◌, ◌∷◌, ◌++◌, [], true, map, IfOk, OnErr, OnOk, IsTrue};
ghost use Rattle.xk_types.specs.Bound.{steps_bound};
ghost use Rattle.xk_types.specs.Logs.{one_step_of};
ghost use Rattle.xk_types.specs.Schedule.{Through, is_enabled, run};
ghost use Rattle.xk_ask.specs.Play.{IsTurnStep, picked, turn};

use std::alloc::AllocError;
use xk_core::Core;
use xk_scheduler::Logged;
use xk_show_events::is_seen;
use xk_types::Act;

/// Who can step, if an answer names somebody who can.
pub(crate) fn picked(core: &Core<'_>, answer: Option<u32>) -> Option<Act>
    ensures { result ≡ picked core.now.module_run core.now.world answer }
{
    match answer {
        None => None,
        Some(number) => {
            if core.enabled(Act(number)) {
                return Some(Act(number));
            }
            None
        }
    }
}

/// A step of an activity that can take one, and whether its turn goes on behind it. Where memory is refused, it wasn't taken.
fn step_on(game: &mut Logged<'_>, act: Act) -> Result<bool, AllocError>
    requires { IsTrue (is_enabled game.old.driver.module_run game.old.driver.world act) }
    ensures stepped { IfOk result (λ more. IsTurnStep game.old.driver.module_run act
        game.old.driver.world game.new.driver.world more) }
    ensures logged { OnOk result
        (game.new.log.items ≡ game.old.log.items ++ one_step_of act ∷ []) }
    ensures same_module { game.new.driver.module_run ≡ game.old.driver.module_run }
    ensures counted { OnOk result
        (game.new.driver.world.steps ≡ game.old.driver.world.steps + 1) }
    ensures bound { OnOk result
        (game.new.driver.world.steps ≤ steps_bound game.new.driver.module_run) }
{
    let event = game.step(act)?;
    Ok(!is_seen(event) && game.driver.core().enabled(act))
}

/// The turn of an activity that can take a step. Where memory is refused, a beginning of it was taken.
pub(crate) fn take_turn(game: &mut Logged<'_>, act: Act) -> Result<(), AllocError>
    requires { IsTrue (is_enabled game.old.driver.module_run game.old.driver.world act) }
    ensures led { OnOk result (run game.old.driver.module_run
        (turn game.old.driver.module_run act game.old.driver.world) game.old.driver.world
        ≡ Through game.new.driver.world) }
    ensures arguments { OnOk result
        (game.new.driver.world.arguments ≡ game.old.driver.world.arguments) }
    ensures logged { OnOk result (game.new.log.items ≡ game.old.log.items
        ++ map one_step_of (turn game.old.driver.module_run act game.old.driver.world)) }
    ensures same_module { game.new.driver.module_run ≡ game.old.driver.module_run }
{
    while step_on(game, act)? {}
    Ok(())
}
