//! What a text without a fault has in it, the table takes.

ghost use Rattle.xk_explain_expected.specs.Laws.{TakesEveryTree, TakesWhatComes};

/// Of a text that spells a tree each token can stand where it stands, and so can the end of the text.
pub fn every_tree()
    ensures { TakesEveryTree }
{}

/// At each offset of such a text what comes next is taken.
pub fn every_place()
    ensures { TakesWhatComes }
{}
