//! The law of the command line's words.
ghost use Rattle.std.specs.Prelude.{◌≡◌, ◌↔◌, ℕ, List, Option, None, Some};
ghost use Rattle.command_words.specs.Spelling.{AreWords, IsCommand, IsPathOf, SpellsCommand};
ghost use Rattle.command_words.specs.Words.{path_in, plan};
ghost use Rattle.command_words.specs.declared.command.Command.{Command};
ghost use Rattle.command_words.specs.declared.command.Command.TheVariants.{Node};
ghost use Rattle.command_words.specs.declared.command.NodeCommand.{NodeCommand};

/// Words, each of bytes, are read as a command exactly where they spell it and its numbers are in range, and so as none where
/// they are outside the grammar. With the path of its journal, which only `node` has, each command in range has one spelling,
/// and the path is found among the words.
pub fn words_are_spelled_once()
    ensures read { (words : List (List ℕ)) (command : Command) → AreWords words →
        (plan words ≡ Some command) ↔ ((path : List ℕ) × SpellsCommand words path command × IsCommand command) }
    ensures none { (words : List (List ℕ)) → AreWords words →
        (plan words ≡ None) ↔ ((path : List ℕ) (command : Command) → SpellsCommand words path command → IsCommand command → ⊥) }
    ensures once { (words others : List (List ℕ)) (path : List ℕ) (command : Command) →
        SpellsCommand words path command → SpellsCommand others path command → words ≡ others }
    ensures each { (command : Command) (path : List ℕ) → IsCommand command → IsPathOf command path →
        (words : List (List ℕ)) × SpellsCommand words path command }
    ensures path { (words : List (List ℕ)) (path : List ℕ) (node : NodeCommand) →
        SpellsCommand words path (Node node) → path_in words ≡ Some path }
{}
