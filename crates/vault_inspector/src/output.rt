//! Writing texts piece by piece.
ghost use Rattle.vault_inspector.specs.Output.{Writes};
ghost use Rattle.vault_inspector.specs.Texts.{numbered};

use itoa::Buffer;
use std::io::Write;
use thiserror::Error;

/// Why a report was not printed whole.
#[derive(Clone, Copy, Debug, PartialEq, Eq, Error)]
pub enum PrintError {
    /// The writer failed, or took nothing.
    #[error("write fault")]
    Write,
}

/// Writes a text. A writer that is given bytes and takes none has failed.
pub(crate) fn put<W: Write>(writer: &mut W, text: &[u8]) -> Result<(), PrintError>
    ensures { Writes (W.contents writer.old) (W.contents writer.new) text.now result }
{
    let mut done = 0;
    while done < text.len() {
        let (_, rest) = text.split_at(done);
        match writer.write(rest) {
            Ok(0) | Err(_) => return Err(PrintError::Write),
            Ok(count) => done += count,
        }
    }
    Ok(())
}

/// Writes words, and a number behind them.
#[tactic(auto, using(crate::proofs::Written::part_then, crate::proofs::Written::writes_after), unfolding(crate::specs::Texts::numbered))]
pub(crate) fn put_number<W: Write>(
    writer: &mut W,
    words: &[u8],
    number: u128,
) -> Result<(), PrintError>
    ensures { Writes (W.contents writer.old) (W.contents writer.new) (numbered words.now number) result }
{
    put(writer, words)?;
    let mut digits = Buffer::new();
    put(writer, digits.format(number).as_bytes())
}
