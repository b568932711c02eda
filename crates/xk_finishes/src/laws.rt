//! The tree and the steps of a world.

ghost use Rattle.std.specs.Prelude.{◌≡◌, ℕ, ℤ, suc, List, [], ◌∷◌, ◌++◌, Some, slice_get, slice_set};
ghost use Rattle.xk_types.specs.declared.world.Value.{Value};
ghost use Rattle.xk_types.specs.Code.{ModuleValue};
ghost use Rattle.xk_types.specs.World.{Activity, Finish, root, main_of, is_ended};
ghost use Rattle.xk_types.specs.Step as step;
ghost use Rattle.xk_finishes.specs.Tree.{NodeValue, fresh_node, node_at, node_entered, node_left, node_ended, changed_at, governing_of, awaits, AreNodesOf};

/// A tree that tells of the activities of a world awaits somebody exactly where the definition of a step does. It tells of main
/// when it is opened, and still tells of all activities after each step, where it is called as the step goes: `enter` at a
/// `finish`, `leave` at an `endfinish`, `spawned` and `ended` where an activity is started or ends. Other steps don't concern it.
pub fn goes_with_steps()
    ensures awaited { (acts : List Activity) (nodes : List NodeValue) → AreNodesOf acts nodes
        → (f : Finish) → awaits nodes f ≡ step.awaits acts f }
    ensures opened { (m : ModuleValue) (room : ℕ)
        → (args : List ℤ) → AreNodesOf (main_of m args ∷ []) (fresh_node root room ∷ []) }
    ensures entered { (acts : List Activity) (nodes : List NodeValue) → AreNodesOf acts nodes
        → (a : ℕ) (act : Activity) → slice_get acts a ≡ Some act
        → AreNodesOf (slice_set acts a (step.entered act)) (changed_at nodes a node_entered) }
    ensures left { (acts : List Activity) (nodes : List NodeValue) → AreNodesOf acts nodes
        → (a : ℕ) (act : Activity) (n : ℕ) → slice_get acts a ≡ Some act → act.opened ≡ suc n
        → AreNodesOf (slice_set acts a (step.left act n)) (changed_at nodes a node_left) }
    ensures spawned { (acts : List Activity) (nodes : List NodeValue) → AreNodesOf acts nodes
        → (a : ℕ) (act : Activity) → slice_get acts a ≡ Some act
        → (m : ModuleValue) (unit : ℕ) (values : List Value) (room : ℕ)
        → AreNodesOf (slice_set acts a (step.onward act) ++ step.child m a act unit values ∷ [])
        (nodes ++ fresh_node (governing_of a (node_at nodes a)) room ∷ []) }
    ensures ended { (acts : List Activity) (nodes : List NodeValue) → AreNodesOf acts nodes
        → (a : ℕ) (act : Activity) → slice_get acts a ≡ Some act
        → AreNodesOf (slice_set acts a (step.ended act)) (changed_at nodes a node_ended) }
    ensures others { (acts : List Activity) (nodes : List NodeValue) → AreNodesOf acts nodes
        → (a : ℕ) (act next : Activity) → slice_get acts a ≡ Some act
        → next.opened ≡ act.opened → next.governed ≡ act.governed
        → is_ended next.status ≡ is_ended act.status
        → AreNodesOf (slice_set acts a next) nodes }
{}
