//! What a leader or a candidate knows of its term.
ghost use Rattle.std.specs.Prelude.{◌≡◌, ◌<◌, ℕ, List};
ghost use Rattle.craft_base.specs.Shape.{Shape};
ghost use Rattle.craft_base.specs.Knowledge.{Heard, fresh, held_form, match_index, next_index};

use crate::{Held, MemberId};

/// What a member that leads, or is about to, knows in its term of the others.
///
/// It stands for all that was heard in the term, each message with the node's last index at its taking, and for the index
/// `first` with which the node began to lead. Whatever list and number it stands for, each answer is theirs. It may stand
/// for several, which then have the same answers.
pub trait Known {
    /// It stands for this list, the latest thing heard first, and this `first`, in a cluster of that shape.
    ghost stands: { Self → Shape → List Heard → ℕ → Type 0 };

    /// The index up to which it no longer tells who holds which form.
    ghost settled_to: { Self → ℕ };

    /// The index up to which the member's log is known to be the node's; 0 where nothing is known.
    fn match_of(&self, member: MemberId) -> u64
        ensures { (shape : Shape) (heard : List Heard) (first : ℕ) → stands self.now shape heard first →
            result ≡ match_index member heard };

    /// The index from which on entries are to be sent to the member.
    fn next_of(&self, member: MemberId) -> u64
        ensures { (shape : Shape) (heard : List Heard) (first : ℕ) → stands self.now shape heard first →
            result ≡ next_index member heard first };

    /// In which form another member is known to hold the entry at that index, which is above `settled()`. In which form the
    /// node itself does, its log tells.
    fn form_at(&self, member: MemberId, index: u64) -> Held
        requires { settled_to self.now < index }
        ensures { (shape : Shape) (heard : List Heard) (first : ℕ) → stands self.now shape heard first →
            result ≡ held_form member index heard };

    /// How many other members were heard since the second last beat, or in all where there were fewer than two.
    fn fresh_count(&self) -> u8
        ensures { (shape : Shape) (heard : List Heard) (first : ℕ) → stands self.now shape heard first →
            result ≡ fresh shape heard };

    /// The index up to which it no longer tells who holds which form.
    fn settled(&self) -> u64
        ensures { result ≡ settled_to self.now };
}
