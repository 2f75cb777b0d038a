//! Lines as commands.

ghost use Rattle.std.specs.Prelude.{◌≡◌, map};
ghost use Rattle.vault_lines.specs.Reading.{Gives};
ghost use Rattle.vault_lines.specs.Grammar.{arguments_in, command_of, words_in};
ghost use Rattle.vault_lines.specs.declared.keyword.Keyword.TheVariants as keywords;

use crate::error::LineError;
use crate::keyword::Keyword;
use crate::limits::LONGEST_LINE;
use crate::split::words_of;
use crate::words::{read_claim, read_content, read_items, read_long, read_number, read_short};
use std::alloc::Allocator;
use vault_model::{Command, CommandIn, Name, Path};

/// `hello NAME`
fn hello<A: Allocator>(arguments: &[&[u8]]) -> Result<CommandIn<A>, LineError>
    ensures { Gives result (arguments_in keywords.Hello (map (λ word. word.now) arguments.now)) }
{
    let [name] = arguments else {
        return Err(LineError::BadLine);
    };
    let name = Name::read(name).ok_or(LineError::BadLine)?;
    Ok(Command::Join(name))
}

/// `make PATH` or `make PATH CNUM`
fn make<A: Allocator>(arguments: &[&[u8]]) -> Result<CommandIn<A>, LineError>
    ensures { Gives result (arguments_in keywords.Make (map (λ word. word.now) arguments.now)) }
{
    let (path, claim) = match arguments {
        [path] => (*path, None),
        [path, claim] => (*path, Some(read_long(claim).ok_or(LineError::BadLine)?)),
        _ => return Err(LineError::BadLine),
    };
    let path = Path::read(path).ok_or(LineError::BadLine)?;
    Ok(Command::Make(path, claim))
}

/// `nest PATH` or `nest PATH CNUM`
fn nest<A: Allocator>(arguments: &[&[u8]]) -> Result<CommandIn<A>, LineError>
    ensures { Gives result (arguments_in keywords.Nest (map (λ word. word.now) arguments.now)) }
{
    let (path, claim) = match arguments {
        [path] => (*path, None),
        [path, claim] => (*path, Some(read_long(claim).ok_or(LineError::BadLine)?)),
        _ => return Err(LineError::BadLine),
    };
    let path = Path::read(path).ok_or(LineError::BadLine)?;
    Ok(Command::Nest(path, claim))
}

/// `checkout ITEM ..`
fn check_out<A: Allocator>(alloc: A, arguments: &[&[u8]]) -> Result<CommandIn<A>, LineError>
    ensures { Gives result (arguments_in keywords.CheckOut (map (λ word. word.now) arguments.now)) }
{
    Ok(Command::CheckOut(read_items(alloc, arguments)?))
}

/// `extend CLAIM ITEM ..`
fn extend<A: Allocator>(alloc: A, arguments: &[&[u8]]) -> Result<CommandIn<A>, LineError>
    ensures { Gives result (arguments_in keywords.Extend (map (λ word. word.now) arguments.now)) }
{
    let [claim, items @ ..] = arguments else {
        return Err(LineError::BadLine);
    };
    let claim = read_claim(claim).ok_or(LineError::BadLine)?;
    Ok(Command::Extend(claim, read_items(alloc, items)?))
}

/// `save CNUM PATH HEX`
fn save<A: Allocator>(alloc: A, arguments: &[&[u8]]) -> Result<CommandIn<A>, LineError>
    ensures { Gives result (arguments_in keywords.Save (map (λ word. word.now) arguments.now)) }
{
    let [claim, path, content] = arguments else {
        return Err(LineError::BadLine);
    };
    let claim = read_long(claim).ok_or(LineError::BadLine)?;
    let path = Path::read(path).ok_or(LineError::BadLine)?;
    let content = read_content(alloc, content)?;
    Ok(Command::Save(claim, path, content))
}

/// `checkin CNUM`
fn check_in<A: Allocator>(arguments: &[&[u8]]) -> Result<CommandIn<A>, LineError>
    ensures { Gives result (arguments_in keywords.CheckIn (map (λ word. word.now) arguments.now)) }
{
    let [claim] = arguments else {
        return Err(LineError::BadLine);
    };
    let claim = read_long(claim).ok_or(LineError::BadLine)?;
    Ok(Command::CheckIn(claim))
}

/// `abandon CNUM`
fn abandon<A: Allocator>(arguments: &[&[u8]]) -> Result<CommandIn<A>, LineError>
    ensures { Gives result (arguments_in keywords.Abandon (map (λ word. word.now) arguments.now)) }
{
    let [claim] = arguments else {
        return Err(LineError::BadLine);
    };
    let claim = read_long(claim).ok_or(LineError::BadLine)?;
    Ok(Command::Abandon(claim))
}

/// `hold ITEM ..`
fn hold<A: Allocator>(alloc: A, arguments: &[&[u8]]) -> Result<CommandIn<A>, LineError>
    ensures { Gives result (arguments_in keywords.Hold (map (λ word. word.now) arguments.now)) }
{
    Ok(Command::Hold(read_items(alloc, arguments)?))
}

/// `release HNUM`
fn release<A: Allocator>(arguments: &[&[u8]]) -> Result<CommandIn<A>, LineError>
    ensures { Gives result (arguments_in keywords.Release (map (λ word. word.now) arguments.now)) }
{
    let [claim] = arguments else {
        return Err(LineError::BadLine);
    };
    let claim = read_short(claim).ok_or(LineError::BadLine)?;
    Ok(Command::Release(claim))
}

/// `state CLAIM`
fn state<A: Allocator>(arguments: &[&[u8]]) -> Result<CommandIn<A>, LineError>
    ensures { Gives result (arguments_in keywords.State (map (λ word. word.now) arguments.now)) }
{
    let [claim] = arguments else {
        return Err(LineError::BadLine);
    };
    let claim = read_claim(claim).ok_or(LineError::BadLine)?;
    Ok(Command::State(claim))
}

/// `list PATH`
fn list<A: Allocator>(arguments: &[&[u8]]) -> Result<CommandIn<A>, LineError>
    ensures { Gives result (arguments_in keywords.List (map (λ word. word.now) arguments.now)) }
{
    let [path] = arguments else {
        return Err(LineError::BadLine);
    };
    let path = Path::read(path).ok_or(LineError::BadLine)?;
    Ok(Command::List(path))
}

/// `fetch PATH VERSION`
fn fetch<A: Allocator>(arguments: &[&[u8]]) -> Result<CommandIn<A>, LineError>
    ensures { Gives result (arguments_in keywords.Fetch (map (λ word. word.now) arguments.now)) }
{
    let [path, version] = arguments else {
        return Err(LineError::BadLine);
    };
    let path = Path::read(path).ok_or(LineError::BadLine)?;
    let version = read_number(version).ok_or(LineError::BadLine)?;
    Ok(Command::Fetch(path, version))
}

/// `count PATH`
fn count<A: Allocator>(arguments: &[&[u8]]) -> Result<CommandIn<A>, LineError>
    ensures { Gives result (arguments_in keywords.Count (map (λ word. word.now) arguments.now)) }
{
    let [part] = arguments else {
        return Err(LineError::BadLine);
    };
    let part = Path::read(part).ok_or(LineError::BadLine)?;
    Ok(Command::Count(part))
}

/// `give CNUM NAME`
fn give<A: Allocator>(arguments: &[&[u8]]) -> Result<CommandIn<A>, LineError>
    ensures { Gives result (arguments_in keywords.Give (map (λ word. word.now) arguments.now)) }
{
    let [claim, designer] = arguments else {
        return Err(LineError::BadLine);
    };
    let claim = read_long(claim).ok_or(LineError::BadLine)?;
    let designer = Name::read(designer).ok_or(LineError::BadLine)?;
    Ok(Command::Give(claim, designer))
}

/// `note CNUM` or `note CNUM HEX`
fn note<A: Allocator>(alloc: A, arguments: &[&[u8]]) -> Result<CommandIn<A>, LineError>
    ensures { Gives result (arguments_in keywords.Note (map (λ word. word.now) arguments.now)) }
{
    match arguments {
        [claim] => {
            let claim = read_long(claim).ok_or(LineError::BadLine)?;
            Ok(Command::ReadNote(claim))
        }
        [claim, text] => {
            let claim = read_long(claim).ok_or(LineError::BadLine)?;
            let text = read_content(alloc, text)?;
            Ok(Command::Note(claim, text))
        }
        _ => Err(LineError::BadLine),
    }
}

/// `show CLAIM`
fn show<A: Allocator>(arguments: &[&[u8]]) -> Result<CommandIn<A>, LineError>
    ensures { Gives result (arguments_in keywords.Show (map (λ word. word.now) arguments.now)) }
{
    let [claim] = arguments else {
        return Err(LineError::BadLine);
    };
    let claim = read_claim(claim).ok_or(LineError::BadLine)?;
    Ok(Command::Show(claim))
}

/// `claims PATH`
fn claims<A: Allocator>(arguments: &[&[u8]]) -> Result<CommandIn<A>, LineError>
    ensures { Gives result (arguments_in keywords.Claims (map (λ word. word.now) arguments.now)) }
{
    let [path] = arguments else {
        return Err(LineError::BadLine);
    };
    let path = Path::read(path).ok_or(LineError::BadLine)?;
    Ok(Command::Claims(path))
}

/// `drafts CNUM`
fn drafts<A: Allocator>(arguments: &[&[u8]]) -> Result<CommandIn<A>, LineError>
    ensures { Gives result (arguments_in keywords.Drafts (map (λ word. word.now) arguments.now)) }
{
    let [claim] = arguments else {
        return Err(LineError::BadLine);
    };
    let claim = read_long(claim).ok_or(LineError::BadLine)?;
    Ok(Command::Drafts(claim))
}

/// `draft CNUM PATH`
fn draft<A: Allocator>(arguments: &[&[u8]]) -> Result<CommandIn<A>, LineError>
    ensures { Gives result (arguments_in keywords.Draft (map (λ word. word.now) arguments.now)) }
{
    let [claim, path] = arguments else {
        return Err(LineError::BadLine);
    };
    let claim = read_long(claim).ok_or(LineError::BadLine)?;
    let path = Path::read(path).ok_or(LineError::BadLine)?;
    Ok(Command::Draft(claim, path))
}

/// `wait CLAIM`
fn wait<A: Allocator>(arguments: &[&[u8]]) -> Result<CommandIn<A>, LineError>
    ensures { Gives result (arguments_in keywords.Wait (map (λ word. word.now) arguments.now)) }
{
    let [claim] = arguments else {
        return Err(LineError::BadLine);
    };
    let claim = read_claim(claim).ok_or(LineError::BadLine)?;
    Ok(Command::Await(claim))
}

/// `quit`
fn quit<A: Allocator>(arguments: &[&[u8]]) -> Result<CommandIn<A>, LineError>
    ensures { Gives result (arguments_in keywords.Quit (map (λ word. word.now) arguments.now)) }
{
    if arguments.is_empty() {
        Ok(Command::Leave)
    } else {
        Err(LineError::BadLine)
    }
}

/// The command of a keyword and its arguments, the words behind it.
fn read_arguments<A: Allocator>(
    alloc: A,
    keyword: Keyword,
    arguments: &[&[u8]],
) -> Result<CommandIn<A>, LineError>
    ensures { Gives result (arguments_in keyword (map (λ word. word.now) arguments.now)) }
{
    match keyword {
        Keyword::Hello => hello(arguments),
        Keyword::Make => make(arguments),
        Keyword::Nest => nest(arguments),
        Keyword::CheckOut => check_out(alloc, arguments),
        Keyword::Extend => extend(alloc, arguments),
        Keyword::Save => save(alloc, arguments),
        Keyword::CheckIn => check_in(arguments),
        Keyword::Abandon => abandon(arguments),
        Keyword::Hold => hold(alloc, arguments),
        Keyword::Release => release(arguments),
        Keyword::State => state(arguments),
        Keyword::List => list(arguments),
        Keyword::Fetch => fetch(arguments),
        Keyword::Count => count(arguments),
        Keyword::Give => give(arguments),
        Keyword::Note => note(alloc, arguments),
        Keyword::Show => show(arguments),
        Keyword::Claims => claims(arguments),
        Keyword::Drafts => drafts(arguments),
        Keyword::Draft => draft(arguments),
        Keyword::Wait => wait(arguments),
        Keyword::Quit => quit(arguments),
    }
}

/// The command that the words spell.
fn read_words<A: Allocator>(alloc: A, words: &[&[u8]]) -> Result<CommandIn<A>, LineError>
    ensures { Gives result (words_in (map (λ word. word.now) words.now)) }
{
    let [word, arguments @ ..] = words else {
        return Err(LineError::BadLine);
    };
    let keyword = Keyword::read(word).ok_or(LineError::BadLine)?;
    read_arguments(alloc, keyword, arguments)
}

/// The command that the line spells. The line comes without the line feed at its end. Reading it allocates memory for the
/// list of its words, for the items of a check-out, an extension or a hold, and for a draft's content and a note's text.
/// The sizes of the last two aren't limited here.
pub fn read_line_of<A: Allocator + Copy>(alloc: A, line: &[u8]) -> Result<CommandIn<A>, LineError>
    ensures { Gives result (command_of line.now) }
{
    if line.len() > LONGEST_LINE {
        return Err(LineError::BadLine);
    }
    let words = words_of(alloc, line)?;
    read_words(alloc, words.as_slice())
}
