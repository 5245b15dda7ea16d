//! The program and its commands, as `clap` is told of them.

ghost use Rattle.std.specs.Prelude.{◌≡◌, IfOk, false, map};
ghost use Rattle.clap.specs.Simple.{app_of, new_app};
ghost use Rattle.clap.specs.Walk.{rule_of};
ghost use Rattle.clap.specs.declared.builder.command.Command.TheViews.{out-Command};
ghost use Rattle.gf_words.specs.CommandLine.{program};
ghost use Rattle.gf_words.specs.inner.Table.{argument_rule, form_rule, leaf};
ghost use Rattle.gf_words.specs.inner.Table.{program_alone, shape_for, with_commands};

use crate::commands::{Argument, COMMANDS, Entry, Form};
use crate::help;
use clap::{Arg, ArgAction, Command};
use std::alloc::{AllocError, Global};

/// An argument that may stand beside any other.
fn plain<'a>(alloc: Global, argument: &Argument) -> Arg<'a>
    ensures rule { rule_of result ≡ form_rule argument.now.form argument.now.name.now }
    ensures local { result.global ≡ false }
{
    let arg = Arg::new(alloc, argument.name).help(argument.about);
    match argument.form {
        Form::Flag => arg.long(argument.name).action(ArgAction::SetTrue),
        Form::FlagOrLetter(letter) => arg
            .long(argument.name)
            .short(letter)
            .action(ArgAction::SetTrue),
        Form::Option(value) => arg.long(argument.name).value_name(value),
        Form::Optional => arg,
        Form::Required => arg.required(true),
        Form::Many(value) => arg.num_args(..).value_name(value),
    }
}

fn argument_of<'a>(alloc: Global, argument: &Argument) -> Result<Arg<'a>, AllocError>
    ensures { IfOk result (λ arg. (rule_of arg ≡ argument_rule argument.now)
        × (arg.global ≡ false)) }
{
    let excluding = plain(alloc, argument).conflicts_with_all(argument.excludes)?;
    excluding.requires_all(argument.needs)
}

/// The program or a command, with its texts.
fn described<'a>(alloc: Global, name: &'a str, about: &'a str, after: &'a str) -> Command<'a>
    ensures app { app_of result ≡ new_app name.entry.now }
    ensures local { (out-Command result).has_globals ≡ false }
{
    Command::new(alloc, name)
        .before_help(help::HEAD)
        .about(about)
        .after_help(after)
}

fn command_of<'a>(alloc: Global, entry: &Entry) -> Result<Command<'a>, AllocError>
    ensures { IfOk result (λ command.
        (app_of command ≡ leaf (shape_for entry.now))
        × ((out-Command command).has_globals ≡ false)) }
{
    let mut command = described(alloc, entry.name, entry.about, entry.after);
    for argument in entry.arguments {
        let arg = argument_of(alloc, argument)?;
        command = command.arg(arg)?;
    }
    Ok(command)
}

/// The program, before its commands are added.
fn alone<'a>(alloc: Global) -> Result<Command<'a>, AllocError>
    ensures { IfOk result (λ command. app_of command ≡ program_alone) }
{
    described(alloc, "gamefile", help::ABOUT, help::AFTER)
        .version(help::VERSION)
        .no_binary_name(true)
        .bin_name("gamefile")
}

/// The program with these commands after those that it has.
fn with_commands<'a>(
    alloc: Global,
    mut program: Command<'a>,
    entries: &[Entry],
) -> Result<Command<'a>, AllocError>
    ensures { IfOk result (λ command.
        app_of command ≡ with_commands (app_of program.entry) (map shape_for entries.now)) }
{
    for entry in entries {
        let command = command_of(alloc, entry)?;
        program = program.subcommand(command)?;
    }
    Ok(program)
}

/// The program, with its commands.
pub(crate) fn gamefile<'a>(alloc: Global) -> Result<Command<'a>, AllocError>
    ensures { IfOk result (λ command. app_of command ≡ program) }
{
    let program = alone(alloc)?;
    with_commands(alloc, program, COMMANDS.as_slice())
}
