//! Sets of activities whose steps suffice: a search that takes these alone misses nothing.
#![tactic(auto)]

ghost use Rattle.std.specs.Prelude.{◌≡◌, ◌⊎◌, length, ℕ, ℤ, Bool, false, true, List, [], Some, slice_get};
ghost use Rattle.std.specs.Option.{option_map_or};
ghost use Rattle.xk_closed.specs.Closed.{AreExploredBySets, HasSame, IsCarried, IsClosed, IsStuck};
ghost use Rattle.xk_closed.specs.Footprints.{AreCovered, IsPhase, IsRest, Table};
ghost use Rattle.xk_closed.specs.Futures.{IsFree, IsFuture, alone, is_private};
ghost use Rattle.xk_closed.specs.Phases.{AreOthers, IsHeldUp};
ghost use Rattle.xk_closed.specs.Shards.{BeginsSo, IsInPart, IsShared};
ghost use Rattle.xk_closed.specs.Suffixes.{AreLinked, AreSteps, AreSuffixes, IsEdgeIn, IsPrinted, IsPrintedBySet, IsWorldIn};
ghost use Rattle.xk_closed.specs.Unread.{AreAlikeButUnread, IsUnread, WhereRead, without_cells};
ghost use Rattle.xk_law_commute.specs.Conflicts.{next_instruction};
ghost use Rattle.xk_law_commute.specs.Exploration.{AreLedTo, IsIn, NothingIsMissed};
ghost use Rattle.xk_law_names.specs.Names.{ArePairs, Exchange, all_exchanged};
ghost use Rattle.xk_law_traces.specs.Edges.{phase_of, standing_on};
ghost use Rattle.xk_liveness.specs.Liveness.{AreAlikeWhereLive, IsLiveness, SlotTable};
ghost use Rattle.xk_types.specs.Acceptance.{IsAccepted};
ghost use Rattle.xk_types.specs.Code.{IsWithinLimits, ModuleValue};
ghost use Rattle.xk_types.specs.Schedule.{IsReached, is_enabled, Through, run};
ghost use Rattle.xk_types.specs.Step.{Stepped, innermost, is_under, step};
ghost use Rattle.xk_types.specs.World.{Activity, AreArguments, World, instruction_at, is_ended, opening};
ghost use Rattle.xk_types.specs.declared.instr.Instr.{Instr};
ghost use Rattle.xk_types.specs.declared.instr.Instr.TheVariants as instr;
ghost use Rattle.xk_types.specs.declared.world.Event.TheVariants as event;
ghost use Rattle.xk_types.specs.declared.world.Standing.TheVariants as standing;
ghost use Rattle.xk_types.specs.declared.world.Status.TheVariants as status;

/// What is printed from a world to the end is printed from there by a schedule that begins with a step of a closed set, if somebody of
/// the set can take one.
pub fn set_first()
    ensures { (m : ModuleValue) (w : World) (set : ℕ → Bool) (free : ℕ) (numbers : List ℤ)
        → IsWithinLimits m → IsAccepted m → IsReached m w → IsClosed m w set
        → set free ≡ true → is_enabled m w free ≡ true
        → IsPrinted m w numbers → IsPrintedBySet m w set numbers }
{}

/// What all legal schedules of an accepted module print by which all have ended is known by worlds that were found, if from each of
/// them others were, by the steps of a closed set or by each step, up to worlds that are the same but for names, for slots that are
/// dead and shared numbers that nobody can read any more, by tables, and for what activities that have ended left behind.
pub fn closed_sets()
    ensures { (m : ModuleValue) (live : SlotTable) (rest : Table) (args : List ℤ)
        (all : List (World × List ℤ))
        → IsWithinLimits m → IsAccepted m → IsLiveness m live → IsRest m rest
        → AreArguments m args → AreLedTo m args (IsIn all)
        → HasSame (WhereRead live rest) (IsIn all) (opening m args) []
        → AreExploredBySets m (WhereRead live rest) (IsIn all)
        → NothingIsMissed m args (IsIn all) }
{}

/// What is printed from a world that was found to the end is what can be read along edges from there, if from each world there are
/// edges of the steps of a closed set or of each step, and each edge is of a step: what was printed before is no part of a world.
pub fn suffixes()
    ensures { (m : ModuleValue) (live : SlotTable) (rest : Table) (worlds : List World)
        (edges : List (World × (List ℤ × World)))
        → IsWithinLimits m → IsAccepted m → IsLiveness m live → IsRest m rest
        → AreLinked m (WhereRead live rest) (IsWorldIn worlds) (IsEdgeIn edges)
        → AreSteps m (WhereRead live rest) (IsWorldIn worlds) (IsEdgeIn edges)
        → AreSuffixes m (IsWorldIn worlds) (IsEdgeIn edges) }
{}

/// A search that is shared out by the steps of closed sets is the whole: whatever is printed is printed behind the beginning of a part.
pub fn shares()
    ensures { (m : ModuleValue) (args : List ℤ) (parts : List (List ℕ)) (n : ℕ)
        (numbers : List ℤ)
        → IsWithinLimits m → IsAccepted m → AreArguments m args
        → IsShared m args (λ start. (k : ℕ) × (slice_get parts k ≡ Some start)) n []
        → BeginsSo m args [] numbers
        → IsInPart m args (λ start. (k : ℕ) × (slice_get parts k ≡ Some start)) numbers }
{}

/// As long as an activity that holds a clock up takes no step, the clock stays in its phase, and another that is registered on it and
/// isn't ahead passes no `advance`, unless it has left the clock.
pub fn phases()
    ensures { (m : ModuleValue) (w v : World) (c b d : ℕ) (list : List ℕ)
        → IsWithinLimits m → IsAccepted m → IsReached m w → IsHeldUp w c b d
        → AreOthers d list → run m list w ≡ Through v
        → (phase_of v c ≡ phase_of w c)
        × ((u : World) → step m v b ≡ Stepped u event.Passed
        → standing_on v b c ≡ standing.Apart) }
{}

/// A set of activities that can take steps is closed where these have nothing to do with what others may still carry out. So it is of one
/// alone whose next instruction neither prints nor has to do with a shared number: it may make a clock, or start an activity.
pub fn futures()
    ensures sets { (m : ModuleValue) (w : World) (set : ℕ → Bool) (future : Instr → Bool)
        → IsFuture m w set future → IsFree m w set future → IsClosed m w set }
    ensures one { (m : ModuleValue) (w : World) (a : ℕ) → is_enabled m w a ≡ true
        → option_map_or is_private (next_instruction m w a) true ≡ true
        → IsClosed m w (alone a) }
{}

/// Tables of what may be carried out from each place on, and before the next `advance`, tell what others may do as long as nobody of a set
/// moves: each all that its table has; or that of its phase alone, if one of the set holds it up on a clock.
pub fn footprints()
    ensures { (m : ModuleValue) (w : World) (set : ℕ → Bool) (rest phase : Table)
        (future : Instr → Bool)
        → IsWithinLimits m → IsAccepted m → IsReached m w
        → IsRest m rest → IsPhase m rest phase
        → AreCovered m w set rest phase future → IsFuture m w set future }
{}

/// Who waits at the end of a finish takes no step as long as somebody of the set who is under that finish, and hasn't ended, moves as
/// little.
pub fn waits()
    ensures { (m : ModuleValue) (w : World) (set : ℕ → Bool) (r d k : ℕ) (act z : Activity)
        → IsWithinLimits m → IsAccepted m → IsReached m w → set d ≡ true
        → slice_get w.activities r ≡ Some act → act.status ≡ status.Running
        → instruction_at m act.frame ≡ Some (instr.EndFinish k)
        → slice_get w.activities d ≡ Some z → is_ended z.status ≡ false
        → is_under w.activities (innermost r act) d ≡ true → IsStuck m w set r }
{}

/// Who waits for a clock that one of the set holds up takes no step as long as nobody of the set moves. Nor does one that has ended.
pub fn clock_waits()
    ensures waits { (m : ModuleValue) (w : World) (set : ℕ → Bool) (c r d : ℕ) (act : Activity)
        → IsWithinLimits m → IsAccepted m → IsReached m w → set d ≡ true → IsHeldUp w c r d
        → slice_get w.activities r ≡ Some act → act.status ≡ status.Arrived
        → IsStuck m w set r }
    ensures over { (m : ModuleValue) (w : World) (set : ℕ → Bool) (r : ℕ) (act : Activity)
        → slice_get w.activities r ≡ Some act → is_ended act.status ≡ true
        → IsStuck m w set r }
{}

/// Worlds that differ in shared numbers that nobody can read any more go on alike, by a table of what may still be carried out.
pub fn unread_numbers()
    ensures { (m : ModuleValue) (rest : Table) → IsRest m rest
        → IsCarried m (AreAlikeButUnread rest) }
{}

/// Worlds that are the same but for names, and for what counts no more, go on as one, either way; it is an equivalence. So are two that a
/// search compares: where their live parts are the same, and their shared numbers but for those that nobody can read any more; and a
/// world and the same with activities and clocks in another order.
pub fn where_read()
    ensures compared { (live : SlotTable) (rest : Table) (w v : World)
        → AreAlikeWhereLive live (without_cells w) (without_cells v)
        → length w.cells ≡ length v.cells
        → ((s : ℕ) → (slice_get w.cells s ≡ slice_get v.cells s) ⊎ IsUnread rest v s)
        → WhereRead live rest w v }
    ensures carried { (m : ModuleValue) (live : SlotTable) (rest : Table)
        → IsWithinLimits m → IsAccepted m → IsLiveness m live → IsRest m rest
        → IsCarried m (WhereRead live rest) }
    ensures back { (m : ModuleValue) (live : SlotTable) (rest : Table)
        → IsWithinLimits m → IsAccepted m → IsLiveness m live → IsRest m rest
        → IsCarried m (λ w v. WhereRead live rest v w) }
    ensures renamed { (live : SlotTable) (rest : Table) (xs : List Exchange) (w : World)
        → ArePairs xs w → WhereRead live rest w (all_exchanged xs w) }
    ensures itself { (live : SlotTable) (rest : Table) (w : World) → WhereRead live rest w w }
    ensures turned { (live : SlotTable) (rest : Table) (w v : World)
        → WhereRead live rest w v → WhereRead live rest v w }
    ensures joined { (live : SlotTable) (rest : Table) (w v u : World)
        → WhereRead live rest w v → WhereRead live rest v u → WhereRead live rest w u }
{}
