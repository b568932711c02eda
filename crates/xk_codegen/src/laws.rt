//! Which fault of a program is told.

ghost use Rattle.xk_codegen.specs.Faults.{IsClean, IsFalling, IsFaultOf, IsToldOnce};
ghost use Rattle.xk_source_semantics.specs.Compilation.{IsCompiled};
ghost use Rattle.xk_tree.specs.Tree.{TreeValue};
ghost use Rattle.xk_tree.specs.declared.fault.FrontFault.{FrontFault};
ghost use Rattle.xk_types.specs.Code.{IsWithinLimits, ModuleValue};

/// Of a program with faults one is told, always the same, but for which of several recursive calls. Where it has no fault of names and no recursive
/// call, but one that is told, its code is beyond a limit. The call does nothing; its contract is the law.
pub fn one_fault()
    ensures told { (t : TreeValue) (f g : FrontFault) → IsFaultOf t f → IsFaultOf t g
        → IsToldOnce t f g }
    ensures alone { (t : TreeValue) (f : FrontFault) (m : ModuleValue) → IsFaultOf t f
        → IsClean t → IsFalling t → IsCompiled t m → ¬ IsWithinLimits m }
{}
