ghost use Rattle.std.specs.Prelude.{◌≡◌, ◌≢◌, IfOk, codes, false, map, string_bytes};
ghost use Rattle.std.specs.Option.{option_map_or};
ghost use Rattle.std.specs.Str.{bytes_eq};
ghost use Rattle.clap.specs.Words.{app_of, first_value, found_of, kind_of};
ghost use Rattle.tg_command.specs.Simple as specs;
ghost use Rattle.tg_command.specs.glue.Values.{AreValuesOf};
ghost use Rattle.tg_command.specs.Simple.{IsTaken, simple_command};
ghost use Rattle.tg_command.specs.Arguments.{GivesRequired, IsArgument, IsValued};

use crate::CommandFault;
use crate::flags::Flags;
use clap::error::ErrorKind;
use clap::{Arg, ArgAction, ArgMatches, Command, Error};
use std::alloc::{AllocError, Global};

/// The values of the arguments, as they stand in the words.
#[derive(Clone, Copy)]
pub(crate) struct Values<'a> {
    pub(crate) mode: &'a str,
    pub(crate) file: &'a str,
    pub(crate) heap: Option<&'a str>,
    pub(crate) stack: Option<&'a str>,
    pub(crate) steps: Option<&'a str>,
    pub(crate) flags: Flags,
}

// A positional that must be there.
fn positional<'a>(alloc: Global, name: &'a str) -> Arg<'a>
    ensures argument { IsArgument (specs.positional name.entry.now) result }
    ensures values { IsValued result }
{
    Arg::new(alloc, name).required(true).action(ArgAction::Set)
}

// An option with one value.
fn option<'a>(alloc: Global, name: &'a str) -> Arg<'a>
    ensures { IsArgument (specs.option name.entry.now) result }
{
    Arg::new(alloc, name).long(name).action(ArgAction::Set)
}

// A flag.
fn flag<'a>(alloc: Global, name: &'a str) -> Arg<'a>
    ensures { IsArgument (specs.flag_rule name.entry.now) result }
{
    Arg::new(alloc, name).long(name).action(ArgAction::SetTrue)
}

// The simple command.
fn command<'a>(alloc: Global) -> Result<Command<'a>, AllocError>
    ensures app { IfOk result (λ c. app_of c ≡ simple_command) }
    ensures required { IfOk result (λ c. GivesRequired c) }
{
    Command::new(alloc, "tiger")
        .disable_help_flag(true)
        .disable_version_flag(true)
        .arg(positional(alloc, "mode"))?
        .arg(positional(alloc, "file"))?
        .arg(option(alloc, "heap"))?
        .arg(option(alloc, "stack"))?
        .arg(option(alloc, "steps"))?
        .arg(flag(alloc, "watch"))?
        .arg(flag(alloc, "fold"))?
        .arg(flag(alloc, "bare"))?
        .arg(flag(alloc, "explain"))
}

// The kind of fault that an error of the parse is.
fn fault_of(error: &Error) -> CommandFault
    ensures { result ≡ CommandFault.Usage → kind_of error.now ≢ ErrorKind.OutOfMemory }
{
    match error.kind() {
        ErrorKind::OutOfMemory => CommandFault::Memory,
        _ => CommandFault::Usage,
    }
}

/// Whether a flag stands in the words of a parse: its value is `true` then, and else `false`.
fn has_flag(matches: &ArgMatches, name: &str) -> bool
    ensures { result ≡ option_map_or (λ t. bytes_eq t (codes "true"))
        (first_value (found_of matches.now) name.now) false }
{
    matches.get_str(name) == Some("true")
}

/// The values that the simple command takes from the words, of which the first is the program's
/// name.
pub(crate) fn take_words<'a>(alloc: Global, words: &'a [String]) -> Result<Values<'a>, CommandFault>
    ensures ok { IfOk result (λ values. AreValuesOf (map string_bytes words.entry.now) values) }
    ensures refused { result ≡ Err CommandFault.Usage
        → IsTaken (map string_bytes words.entry.now) → ⊥ }
{
    let command = command(alloc)?;
    let matches = match command.try_get_matches_from(words) {
        Ok(matches) => matches,
        Err(error) => return Err(fault_of(&error)),
    };
    Ok(Values {
        mode: matches.get_str("mode").unwrap(),
        file: matches.get_str("file").unwrap(),
        heap: matches.get_str("heap"),
        stack: matches.get_str("stack"),
        steps: matches.get_str("steps"),
        flags: Flags {
            watch: has_flag(&matches, "watch"),
            fold: has_flag(&matches, "fold"),
            bare: has_flag(&matches, "bare"),
            explain: has_flag(&matches, "explain"),
        },
    })
}
