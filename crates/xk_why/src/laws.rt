//! What is proved of slices: nothing here is computed.

ghost use Rattle.std.specs.Prelude.{ℕ, List};
ghost use Rattle.xk_why.specs.declared.flows.Flow.{Flow};
ghost use Rattle.xk_why.specs.declared.flows.Location.{Location};
ghost use Rattle.xk_why.specs.Exactness.{RestIsExact, SliceIsExact};

/// One pass back along what the steps of a run made has exactly those flows by which what is wanted was made, and what they used,
/// and so on. The call does nothing; its contract is the law.
pub fn slice_is_exact()
    ensures { (fs : List Flow) (wanted : List Location) → SliceIsExact fs wanted }
{}

/// The steps that are told behind a step are those, of all that others can see, that made what it used, or what that rests on. The call
/// does nothing; its contract is the law.
pub fn rest_is_exact()
    ensures { (n : ℕ) (fs : List Flow) → RestIsExact n fs }
{}
