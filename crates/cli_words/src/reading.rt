ghost use Rattle.std.specs.Prelude.{◌≡◌, ◌≢◌, true, false, None, Some, Err, map, string_bytes, IfOk, IfErr, OnOk};
ghost use Rattle.clap.specs.Words.{app_of, kind_of, is_simple_and_free};
ghost use Rattle.cli_words.specs.Commands.{asked_of, form_of, is_taken, pipe, words_of};

use crate::words::{Words, WordsRefused};
use clap::error::ErrorKind;
use clap::{ArgMatches, Command, Error};
use std::alloc::Global;

/// Why `clap` refused the words.
fn refused(error: &Error) -> WordsRefused
    ensures memory { kind_of error.now ≡ ErrorKind.OutOfMemory → result ≡ WordsRefused.NoMemory }
    ensures bad { kind_of error.now ≢ ErrorKind.OutOfMemory → result ≡ WordsRefused.BadWords }
{
    match error.kind() {
        ErrorKind::OutOfMemory => WordsRefused::NoMemory,
        _ => WordsRefused::BadWords,
    }
}

/// What `clap` makes of the words, of which the first is the command's name.
fn matches<'a>(command: Command<'a>, words: &'a [String]) -> Result<ArgMatches<'a>, WordsRefused>
    requires { is_simple_and_free (app_of command) ≡ true }
    ensures taken { OnOk result (is_taken (app_of command.entry) (map string_bytes words.entry.now) ≡ true) }
    ensures bad { IfErr result (λ why. why ≡ WordsRefused.BadWords
        → is_taken (app_of command.entry) (map string_bytes words.entry.now) ≡ false) }
{
    match command.try_get_matches_from(words) {
        Ok(matches) => Ok(matches),
        Err(error) => Err(refused(&error)),
    }
}

fn read_pipe(alloc: Global, words: &[String]) -> Result<Words, WordsRefused>
    ensures means { IfOk result (λ it. asked_of pipe (map string_bytes words.now) ≡ Some it) }
    ensures bad { IfErr result (λ why. why ≡ WordsRefused.BadWords → asked_of pipe (map string_bytes words.now) ≡ None) }
{
    let command = Command::new(alloc, "pipe").disable_help_flag(true);
    match matches(command, words) {
        Ok(_) => Ok(Words::Pipe { store: None }),
        Err(why) => Err(why),
    }
}

/// What the words ask for: the first names a command, and `clap` takes the others by it. The one command yet is `pipe`, without options.
/// BadWords: no command is named, or `clap` refuses the others. NoMemory may come in place of the latter.
pub fn read(alloc: Global, words: &[String]) -> Result<Words, WordsRefused>
    ensures means { IfOk result (λ it. words_of (map string_bytes words.now) ≡ Some it) }
    ensures bad { IfErr result (λ why. why ≡ WordsRefused.BadWords → words_of (map string_bytes words.now) ≡ None) }
    ensures unnamed { form_of (map string_bytes words.now) ≡ None → result ≡ Err WordsRefused.BadWords }
{
    match words {
        [name, ..] if name.as_str() == "pipe" => read_pipe(alloc, words),
        _ => Err(WordsRefused::BadWords),
    }
}
