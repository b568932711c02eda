//! Worlds without the activities that have ended: those that are left are known by rank, and go on as before.
#![tactic(auto)]

ghost use Rattle.std.specs.Prelude.{◌≡◌, ℕ, ℤ, List, [], Some, slice_get, true};
ghost use Rattle.xk_closed.specs.Closed.{AreExploredBySets, HasSame, IsCarried};
ghost use Rattle.xk_closed.specs.Suffixes.{AreLinked, AreSteps, AreSuffixes, IsEdgeIn, IsWorldIn};
ghost use Rattle.xk_law_commute.specs.Exploration.{AreLedTo, IsIn, NothingIsMissed};
ghost use Rattle.xk_liveness.specs.Liveness.{AreAlikeWhereLive, IsLiveness, SlotTable};
ghost use Rattle.xk_ranks.specs.Ranks.{AreAlikeByRank, AreReachedAlike, ComesToRemains, GoOnByRank};
ghost use Rattle.xk_ranks.specs.Ranks.{HaveOneRank, StandAlike, going, rank, remains};
ghost use Rattle.xk_ranks.specs.Reads.{AreAlikeByReads, AreReachedByReads, Counting, GoOnByReads, IsCounting};
ghost use Rattle.xk_types.specs.Acceptance.{IsAccepted};
ghost use Rattle.xk_types.specs.Code.{IsWithinLimits, ModuleValue};
ghost use Rattle.xk_types.specs.Schedule.{IsReached};
ghost use Rattle.xk_types.specs.Step.{step};
ghost use Rattle.xk_types.specs.World.{AreArguments, World, opening};

/// In each world that a legal schedule of an accepted module leads to, activities that have ended may be left out, with
/// where they stand on clocks: each other one takes by its rank the steps that it took by its number, with the same
/// events, to worlds in which the same is left.
pub fn remains()
    ensures { (m : ModuleValue) (w : World) (a : ℕ)
        → IsWithinLimits m → IsAccepted m → IsReached m w
        → slice_get (going w.activities) a ≡ Some true
        → ComesToRemains (step m w a) (step m (remains w) (rank (going w.activities) a)) }
{}

/// Such worlds in which the same is left, but for dead slots, numbers of steps and phases, go on as one, each activity by
/// its rank; they are no fewer than those that are alike where slots are live.
pub fn ranks()
    ensures goes { (m : ModuleValue) (live : SlotTable) (w v : World)
        → IsWithinLimits m → IsAccepted m → IsLiveness m live
        → IsReached m w → IsReached m v → AreAlikeByRank live w v
        → GoOnByRank m live w v }
    ensures stand { (m : ModuleValue) (live : SlotTable) (w v : World) (a b : ℕ)
        → IsWithinLimits m → IsAccepted m → IsLiveness m live
        → IsReached m w → IsReached m v → AreAlikeByRank live w v
        → HaveOneRank w a v b → StandAlike m w a v b }
    ensures one { (w v : World) (a b c : ℕ) → HaveOneRank w a v b → HaveOneRank w a v c → b ≡ c }
    ensures wider { (live : SlotTable) (w v : World) → AreAlikeWhereLive live w v
        → AreAlikeByRank live w v }
    ensures turned { (live : SlotTable) (w v : World) → AreAlikeByRank live w v
        → AreAlikeByRank live v w }
    ensures joined { (live : SlotTable) (w v u : World) → AreAlikeByRank live w v
        → AreAlikeByRank live v u → AreAlikeByRank live w u }
    ensures carried { (m : ModuleValue) (live : SlotTable)
        → IsWithinLimits m → IsAccepted m → IsLiveness m live
        → IsCarried m (AreReachedAlike m live) }
    ensures back { (m : ModuleValue) (live : SlotTable)
        → IsWithinLimits m → IsAccepted m → IsLiveness m live
        → IsCarried m (λ w v. AreReachedAlike m live v w) }
{}

/// So do such worlds that differ in shared numbers, too, which nobody can read any more, by a table of what may still be
/// carried out; they are no fewer than those that are alike by rank.
pub fn reads()
    ensures goes { (m : ModuleValue) (c : Counting) (w v : World)
        → IsWithinLimits m → IsAccepted m → IsCounting m c
        → IsReached m w → IsReached m v → AreAlikeByReads c w v
        → GoOnByReads m c w v }
    ensures stand { (m : ModuleValue) (c : Counting) (w v : World) (a b : ℕ)
        → IsWithinLimits m → IsAccepted m → IsCounting m c
        → IsReached m w → IsReached m v → AreAlikeByReads c w v
        → HaveOneRank w a v b → StandAlike m w a v b }
    ensures wider { (c : Counting) (w v : World) → AreAlikeByRank c.live w v
        → AreAlikeByReads c w v }
    ensures carried { (m : ModuleValue) (c : Counting)
        → IsWithinLimits m → IsAccepted m → IsCounting m c
        → IsCarried m (AreReachedByReads m c) }
    ensures back { (m : ModuleValue) (c : Counting)
        → IsWithinLimits m → IsAccepted m → IsCounting m c
        → IsCarried m (λ w v. AreReachedByReads m c v w) }
{}

/// A search may take a world that was found for each that is alike by rank: by closed sets nothing is missed, and what is
/// printed from a world on is what can be read along edges.
pub fn searches()
    ensures sets { (m : ModuleValue) (live : SlotTable) (args : List ℤ)
        (all : List (World × List ℤ))
        → IsWithinLimits m → IsAccepted m → IsLiveness m live
        → AreArguments m args → AreLedTo m args (IsIn all)
        → HasSame (AreReachedAlike m live) (IsIn all) (opening m args) []
        → AreExploredBySets m (AreReachedAlike m live) (IsIn all)
        → NothingIsMissed m args (IsIn all) }
    ensures suffixes { (m : ModuleValue) (live : SlotTable) (worlds : List World)
        (edges : List (World × (List ℤ × World)))
        → IsWithinLimits m → IsAccepted m → IsLiveness m live
        → AreLinked m (AreReachedAlike m live) (IsWorldIn worlds) (IsEdgeIn edges)
        → AreSteps m (AreReachedAlike m live) (IsWorldIn worlds) (IsEdgeIn edges)
        → AreSuffixes m (IsWorldIn worlds) (IsEdgeIn edges) }
{}
