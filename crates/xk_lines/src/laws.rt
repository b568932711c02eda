//! What it means that a line is shown sign by sign: nothing here is computed.

ghost use Rattle.std.specs.Prelude.{◌≡◌, ℕ, List, flat_map};
ghost use Rattle.xk_lines.specs.Signs.{signs};

/// The signs of a text, one behind another, are the text: nothing of a line is left out, and nothing comes twice.
pub fn signs_of_texts()
    ensures { (text : List ℕ) → flat_map (λ sign. sign) (signs text) ≡ text }
{}
