//! Laws of the grammar of lines.

ghost use Rattle.vault_lines.specs.Spelling.{OneCommand, ReadAsSpelled, ToldAsSpelled};

/// A line is read as a command exactly if it is the command's words, joined by single spaces and not too long in all. The words
/// are the keyword and a spelling of each part of the command.
pub fn read_as_spelled()
    ensures { ReadAsSpelled }
{}

/// A line spells at most one command.
pub fn one_command()
    ensures { OneCommand }
{}

/// The text of a content in a reply spells that content, so a later line may save it in the same text.
pub fn told_as_spelled()
    ensures { ToldAsSpelled }
{}
