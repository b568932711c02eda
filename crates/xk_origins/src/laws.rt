//! That each instruction has one origin, that a token of the text stands there, that slots are called as code has them, and that the source
//! stands where origins say.

ghost use Rattle.std.specs.Prelude.{◌≡◌, ℕ, ◌≤◌, List, Some, is_some, length, slice_get};
ghost use Rattle.xk_tree.specs.Tree.{Statement, TreeValue};
ghost use Rattle.xk_tree.specs.AsyncOffsets.{HasBodiesApart};
ghost use Rattle.xk_tree.specs.declared.fault.FrontFault.{FrontFault};
ghost use Rattle.xk_types.specs.Code.{ModuleValue};
ghost use Rattle.xk_types.specs.Schedule.{Leads};
ghost use Rattle.xk_types.specs.Step.{step};
ghost use Rattle.xk_types.specs.World.{World, opening};
ghost use Rattle.xk_names.specs.Faults.{HasFault};
ghost use Rattle.xk_names.specs.Scope.{find, has};
ghost use Rattle.xk_names.specs.Captures.{shared_texts};
ghost use Rattle.xk_emit.specs.CodeOf.{Scope, Setting, code_of};
ghost use Rattle.xk_syntax.specs.Spelling.{SpellsTree};
ghost use Rattle.xk_source_semantics.specs.Parts.{Part};
ghost use Rattle.xk_source_semantics.specs.Compilation.{IsCompiled};
ghost use Rattle.xk_source_semantics.specs.Meaning.{moments};
ghost use Rattle.xk_origins.specs.Due.{HasRunBeside};
ghost use Rattle.xk_origins.specs.Laws.{AreAtTokens, AreOrigins, HasOneForEach, code_at};
ghost use Rattle.xk_origins.specs.Origin.{origins, part_origins};
ghost use Rattle.xk_origins.specs.OwnInstructions.{AreOf};
ghost use Rattle.xk_unit_origins.specs.UnitOrigins.{UnitOrigins, slots_at};
ghost use Rattle.xk_origins.specs.VisibleNames.{AreSlotNames};

/// The code of a statement has as many instructions as origins, whatever scope, temporary, slot and place it is made for: which names are
/// shared numbers is all that tells how long it is. The call does nothing; its contract is the law.
pub fn as_many_as_instructions()
    ensures { (cx : Setting) (shared : List (List ℕ))
        → ((x : List ℕ) → has shared x ≡ is_some (find cx.shared x))
        → (t : ℕ) (scope : Scope) (n p : ℕ) (s : Statement)
        → length (origins shared s) ≡ length (code_of cx t scope n p s) }
{}

/// Each instruction of a compiled module has one origin. The call does nothing; its contract is the law.
pub fn one_for_each_instruction()
    ensures { (t : TreeValue) (m : ModuleValue) (os : List UnitOrigins)
        → IsCompiled t m → AreOrigins t os → HasOneForEach m os }
{}

/// Each instruction of a compiled module is one that its origin's statement has of its own: it reckons a number for it, does it, ends it or
/// a turn of it, or jumps over its `else`. The call does nothing; its contract is the law.
pub fn each_is_of_its_origin()
    ensures { (t : TreeValue) (m : ModuleValue) → (c : IsCompiled t m)
        → (k : ℕ) (p : Part) → slice_get c.units k ≡ Some p
        → AreOf (part_origins (shared_texts t.shared) p) (code_at m k) }
{}

/// Slots are called as the code of a compiled module has them: wherever a name is visible, it has the slot that is called by it; and behind
/// these are temporaries. The call does nothing; its contract is the law.
pub fn slots_have_their_names()
    ensures { (t : TreeValue) (m : ModuleValue) (os : List UnitOrigins) → HasBodiesApart t
        → (c : IsCompiled t m) → AreOrigins t os
        → (k : ℕ) (p : Part) → slice_get c.units k ≡ Some p
        → AreSlotNames c.setting p (slots_at os k) }
{}

/// Where a text spells the tree, one of its tokens stands at each origin. The call does nothing; its contract is the law.
pub fn a_token_stands_there()
    ensures { (text : List ℕ) (t : TreeValue) (os : List UnitOrigins)
        → (s : SpellsTree text t) → AreOrigins t os → AreAtTokens s.spelled.0 os }
{}

/// What the origin of an instruction says is what the source has to do there: origins are no hint. For each legal run of a compiled module
/// there is a run of the tree with the same arguments and the same moments, as `means_its_source` of `xk_law_compiler` has it, at the end of
/// which activities are beside each other, one for one, with the same status and as many open `finish`es. What one of the tree has to do
/// first is what the origin of the place says at which the last frame of the module's stands; where that is a jump over an `else`, of where
/// it leads. In an `advanceAll` whose first half is done, and in a frame that waits at a call, it is so of the place behind. The call does
/// nothing; its contract is the law.
pub fn stands_as_its_source()
    ensures { (t : TreeValue) (m : ModuleValue) → ((f : FrontFault) → HasFault t f → ⊥)
        → HasBodiesApart t → length m.units ≤ 1024 → (c : IsCompiled t m)
        → (list : List ℕ) (w : World) → Leads m list w
        → HasRunBeside t m c.units (moments (step m) list (opening m w.arguments)) w }
{}
