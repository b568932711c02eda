//! What the body of an `async` takes from outside are its free variables.

ghost use Rattle.xk_names.specs.FreeVariables.{TakesFree, TakesInOrder, TakesOnce};

/// In a tree without faults of names, a body of `async` takes exactly its free variables: the numbers that stay, are declared outside of it, and
/// are used in it or in a body within. Each is taken once, in the order of their first uses. The call does nothing; its contract is the law.
pub fn takes_free_variables()
    ensures free { TakesFree }
    ensures once { TakesOnce }
    ensures order { TakesInOrder }
{}
