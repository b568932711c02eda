//! That compiled programs mean their source.

ghost use Rattle.std.specs.Prelude.{length, ◌≤◌, ◌≡◌};
ghost use Rattle.xk_names.specs.Faults.{HasFault};
ghost use Rattle.xk_source_semantics.specs.Compilation.{IsCompiled};
ghost use Rattle.xk_source_semantics.specs.Meaning.{Means};
ghost use Rattle.xk_tree.specs.AsyncOffsets.{HasBodiesApart};
ghost use Rattle.xk_tree.specs.Tree.{TreeValue};
ghost use Rattle.xk_tree.specs.declared.fault.FrontFault.{FrontFault};
ghost use Rattle.xk_types.specs.Code.{ModuleValue};

/// A compiled program means its source. Let a module be the code of a tree without faults of names, in which the offsets of the words
/// `async` rise. For each legal run of the module there is a run of the tree with the same arguments in which the same is seen: the same activities
/// do the same things in the same order, and after each of these all clocks and shared numbers are the same. It is never wrong, and all
/// of its activities have ended just where the module's have. The call does nothing; its contract is the law.
pub fn means_its_source()
    ensures { (t : TreeValue) (m : ModuleValue) → ((f : FrontFault) → HasFault t f → ⊥)
        → HasBodiesApart t → length m.units ≤ 1024 → IsCompiled t m → Means t m }
{}

/// A tree is compiled to one module at most. The call does nothing; its contract is the law.
pub fn compiled_once()
    ensures { (t : TreeValue) (m n : ModuleValue) → IsCompiled t m → IsCompiled t n → m ≡ n }
{}
