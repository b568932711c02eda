//! What is proved of spans: nothing here is computed.

ghost use Rattle.std.specs.Prelude.{◌≡◌, List, length};
ghost use Rattle.xk_races.specs.declared.deeds.Deed.{Deed};
ghost use Rattle.xk_span.specs.Chains.{Weights};
ghost use Rattle.xk_span.specs.Steps.{critical_steps, steps_span};
ghost use Rattle.xk_span.specs.Exactness.{PathIsExact, SpanIsExact, TimesAreExact};

/// One pass along the deeds of a run tells of each how much the greatest chain up to it weighs: there is one, and none that weighs
/// more. The call does nothing; its contract is the law.
pub fn times_are_exact()
    ensures { (w : Weights) (ds : List Deed) → TimesAreExact w ds }
{}

/// The greatest of these times is the span. The call does nothing; its contract is the law.
pub fn span_is_exact()
    ensures { (w : Weights) (ds : List Deed) → SpanIsExact w ds }
{}

/// The path that is told is a chain, and weighs as much as the span. The call does nothing; its contract is the law.
pub fn path_is_exact()
    ensures { (w : Weights) (ds : List Deed) → PathIsExact w ds }
{}

/// The path of a run has as many steps as the span says. The call does nothing; its contract is the law.
pub fn path_is_as_long()
    ensures { (ds : List Deed) → length (critical_steps ds) ≡ steps_span ds }
{}
