//! What `clap` finds in words by the command line.
ghost use Rattle.std.specs.Prelude.{◌≡◌, IfErr, IfOk, map, string_bytes};
ghost use Rattle.clap.specs.Words.{App, HasKind, fault_of, kind_of};
ghost use Rattle.clap.specs.declared.error.kind.ErrorKind.TheVariants.{MissingSubcommand};
ghost use Rattle.lsp_words.specs.CommandLine.{IsCommandLine};
ghost use Rattle.lsp_words.specs.Finding.{Finds};

use crate::commands::command_line;
use clap::error::ErrorKind;
use clap::{ArgMatches, Error};
use std::alloc::{AllocError, Global};

/// Reads the words of a command line, the program's name first.
///
/// # Errors
/// `OutOfMemory` where memory was refused; `DisplayHelp` and `DisplayVersion` where the words ask
/// for these; any other kind for bad arguments.
pub fn found_in<'a>(alloc: Global, words: &'a [String]) -> Result<ArgMatches<'a>, Error>
    // The words parse by the command line, and this is found in them.
    ensures ok { IfOk result (λ found.
        (app : App) × IsCommandLine app × Finds app (map string_bytes words.entry.now) found) }
    // The error is one that these words have by the command line, or memory was refused.
    ensures err { IfErr result (λ error. (app : App) × IsCommandLine app
        × HasKind (fault_of app (map string_bytes words.entry.now)) error) }
{
    let mut command = command_line(alloc)?;
    let found = command.try_get_matches_from_mut(words)?;
    Ok(found)
}

/// The error for words in which nothing is found that can be asked for.
pub fn command_required(alloc: Global) -> Result<Error, AllocError>
    ensures { IfOk result (λ error. kind_of error ≡ MissingSubcommand) }
{
    command_line(alloc)?.error(ErrorKind::MissingSubcommand, "a command is required")
}
