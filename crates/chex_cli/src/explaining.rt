//! What is said on standard error of words that are no command.
ghost use Rattle.std.specs.Prelude.{◌≡◌, IfSome};

use crate::usage::{Argument, COMMANDS, Form, Help, LAST, STATUSES};
use chex_base::NoMemory;
use clap::{Arg, ArgAction, ArgMatches, Command};
use std::alloc::Global;
use std::io;

/// Says why words are no command, as far as clap says it, and what a command is. Nothing of it has a
/// say in what `chex` does; a standard error that takes nothing changes nothing else.
pub fn explain<R: Eprint + AllocGlobal>(rt: &R, words: &[String]) {
    let _ = say(rt, words);
}

fn say<R: Eprint + AllocGlobal>(rt: &R, words: &[String]) -> io::Result<()> {
    match words {
        [] => {
            eprintln!(rt; "chex: no command is named")?;
            say_commands(rt)
        }
        [name, rest @ ..] => match help_of(name.as_str()) {
            None => {
                eprintln!(rt; "chex: there is no command '{name}'")?;
                say_commands(rt)
            }
            Some(help) => {
                say_reason(rt, &help, rest)?;
                say_help(rt, &help)
            }
        },
    }
}

/// The command of this name, if there is one.
fn help_of(name: &str) -> Option<Help>
    ensures { IfSome result (λ help. help.name.now ≡ name.now) }
{
    for help in &COMMANDS {
        if help.name == name {
            return Some(*help);
        }
    }
    None
}

fn say_commands<R: Eprint>(rt: &R) -> io::Result<()> {
    eprintln!(rt; "\nusage: chex COMMAND ..\n")?;
    for help in &COMMANDS {
        eprintln!(rt; "  {} {}\n      {}", help.name, help.line, help.does)?;
    }
    eprintln!(rt;
        "\nchex COMMAND with no more words says what each of its options is.\n{STATUSES}"
    )?;
    eprintln!(rt; "example: {LAST}")
}

fn say_help<R: Eprint>(rt: &R, help: &Help) -> io::Result<()> {
    eprintln!(rt;
        "\nusage: chex {} {}\n\n{}\n",
        help.name, help.line, help.does
    )?;
    for argument in help.arguments {
        eprintln!(rt; "  {:<16} {}", argument.shown, argument.says)?;
    }
    eprintln!(rt; "\n{STATUSES}\nexample: {}", help.example)
}

/// Says why the words after a command's name are refused.
fn say_reason<R: Eprint + AllocGlobal>(rt: &R, help: &Help, words: &[String]) -> io::Result<()> {
    match reason(rt.alloc(), help, words) {
        Ok(reason) => eprintln!(rt; "chex: {reason}"),
        Err(NoMemory) => Ok(()),
    }
}

fn reason<'a>(alloc: Global, help: &Help, words: &'a [String]) -> Result<String, NoMemory> {
    let command: Command<'a> = command_of(alloc, help)?;
    match command.try_get_matches_from(words) {
        Ok(matches) => number_reason(alloc, help, &matches),
        Err(error) => {
            let text = format!(in alloc; "{error}")?;
            first_part(alloc, text.as_str())
        }
    }
}

/// What stands in clap's text before the usage that it shows.
fn first_part(alloc: Global, text: &str) -> Result<String, NoMemory> {
    let part = match text.split_once("\n\nUsage:") {
        Some((part, _)) => part,
        None => text,
    };
    let part = match part.strip_prefix("error: ") {
        Some(part) => part,
        None => part,
    };
    Ok(String::from_str(alloc, part)?)
}

/// The first number that is outside its limits.
fn number_reason(alloc: Global, help: &Help, matches: &ArgMatches<'_>) -> Result<String, NoMemory> {
    for argument in help.arguments {
        if let Some((least, most)) = argument.limits {
            if let Some(text) = matches.get_str(argument.id) {
                if !is_within(least, most, text) {
                    return Ok(format!(in alloc;
                        "--{} is '{text}', which is no number from {least} to {most}",
                        argument.id
                    )?);
                }
            }
        }
    }
    Ok(String::from_str(alloc, "a number has more than 19 digits, or a sign")?)
}

fn is_within(least: u64, most: u64, text: &str) -> bool {
    match text.parse::<u64>() {
        Ok(number) => number >= least && number <= most,
        Err(_) => false,
    }
}

/// A command as clap is asked about it.
fn command_of<'a>(alloc: Global, help: &Help) -> Result<Command<'a>, NoMemory> {
    let mut command = Command::new(alloc, help.name)
        .no_binary_name(true)
        .disable_help_flag(true)
        .disable_version_flag(true);
    for argument in help.arguments {
        command = command.arg(arg_of(alloc, argument))?;
    }
    Ok(command)
}

fn arg_of<'a>(alloc: Global, argument: &Argument) -> Arg<'a> {
    let arg = Arg::new(alloc, argument.id);
    match argument.form {
        Form::Positional => arg.required(true),
        Form::Needed => arg.long(argument.id).required(true),
        Form::Choice => arg.long(argument.id),
        Form::Flag => arg.long(argument.id).action(ArgAction::SetTrue),
    }
}
