//! What the definitions of the text say in its own words: which bytes spell what. Nothing here runs.
ghost use Rattle.std.specs.Prelude.{◌≡◌, ◌≤◌, ◌<◌, ◌↔◌, ℕ, List, All, length};
ghost use Rattle.craft_base.specs.Shape.{Shape, IsShape};
ghost use Rattle.entry_frames.specs.Limits.{longest_value};
ghost use Rattle.rs_code.specs.Fragments.{fragment};
ghost use Rattle.fragment_text.specs.Joining.{IsJoined};
ghost use Rattle.fragment_text.specs.Said.{Said, Good, BadAt, reading, first_parts};
ghost use Rattle.fragment_text.specs.Spelling.{SpellsText, IsFirstBad};
ghost use Rattle.fragment_text.specs.Texts.{split_text, said_of};

/// A text is read as a value's length and parts exactly where it spells them, and what it spells has no other text. Its
/// first bad line is told by the bytes alone.
pub fn texts_are_spelled_once()
    ensures read { (shape : Shape) (bytes : List ℕ) (said : Said) → (reading shape bytes ≡ Good said) ↔ SpellsText shape bytes said }
    ensures once { (shape : Shape) (bytes other : List ℕ) (said : Said) → SpellsText shape bytes said → SpellsText shape other said → bytes ≡ other }
    ensures bad { (shape : Shape) (bytes : List ℕ) (n : ℕ) → (reading shape bytes ≡ BadAt n) ↔ IsFirstBad shape bytes n }
{}

/// The text of a value spells its length and its fragment for each member, and so is read as them. Any text whose parts
/// are fragments of the value gives that value, if it gives one.
pub fn a_value_comes_back()
    ensures spelled { (shape : Shape) (value : List ℕ) → IsShape shape → length value ≤ longest_value →
        SpellsText shape (split_text shape value) (said_of shape value) }
    ensures read { (shape : Shape) (value : List ℕ) → IsShape shape → length value ≤ longest_value →
        reading shape (split_text shape value) ≡ Good (said_of shape value) }
    ensures joined { (shape : Shape) (value : List ℕ) (said : Said) (joined : List ℕ) → All (λ b. b < 256) value →
        said.value_length ≡ length value → All (λ part. part.bytes ≡ fragment value shape.need part.member) said.parts →
        IsJoined (first_parts shape said) joined → joined ≡ value }
{}
