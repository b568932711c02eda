//! What of a world may still count: slots that are live, and not what activities that have ended left behind.
#![tactic(auto)]

ghost use Rattle.std.specs.Prelude.{◌≡◌, ℕ, List, ◌++◌};
ghost use Rattle.xk_law_names.specs.ActivityNames.{HasAllStandings};
ghost use Rattle.xk_law_names.specs.Names.{AreSameBy, Exchange};
ghost use Rattle.xk_liveness.specs.LiveNames.{AreSameWhereLive, GoAsOneWhereLive, WhereLive};
ghost use Rattle.xk_liveness.specs.Liveness.{AreAlikeButEnded, AreAlikeWhereLive, GoOnAlike, IsLiveness, SlotTable, live_outcome};
ghost use Rattle.xk_types.specs.Code.{ModuleValue};
ghost use Rattle.xk_types.specs.Step.{step};
ghost use Rattle.xk_types.specs.World.{World};

/// Worlds that differ in what activities that have ended left in their frames, in numbers of steps and in phases alone go on alike.
pub fn ended_frames()
    ensures { (m : ModuleValue) (w v : World) → AreAlikeButEnded w v
        → GoOnAlike m AreAlikeButEnded w v }
{}

/// Worlds that differ in that and in dead slots alone go on alike, if the table has all slots that are live: a slot is live before
/// an instruction that reads it, and where it is live behind and not written on the way there.
pub fn dead_slots()
    ensures steps { (m : ModuleValue) (live : SlotTable) (w v : World)
        → IsLiveness m live → AreAlikeWhereLive live w v
        → (a : ℕ) → live_outcome live (step m w a) ≡ live_outcome live (step m v a) }
    ensures goes { (m : ModuleValue) (live : SlotTable) (w v : World)
        → IsLiveness m live → AreAlikeWhereLive live w v
        → GoOnAlike m (AreAlikeWhereLive live) w v }
{}

/// So it is up to names of clocks and activities.
pub fn same_where_live()
    ensures names { (live : SlotTable) (xs : List Exchange) (w v : World)
        → AreSameBy xs w v → AreSameWhereLive live xs w v }
    ensures joined { (live : SlotTable) (xs ys : List Exchange) (w v u : World)
        → AreSameWhereLive live xs w v → AreSameWhereLive live ys v u
        → AreSameWhereLive live (xs ++ ys) w u }
    ensures back { (live : SlotTable) (w v : World) → WhereLive live w v → WhereLive live v w }
    ensures steps { (m : ModuleValue) (live : SlotTable) (xs : List Exchange) (w v : World)
        → IsLiveness m live → HasAllStandings w → AreSameWhereLive live xs w v
        → GoAsOneWhereLive m live xs w v }
{}
