//! The command line, as `clap` knows it.

ghost use Rattle.std.specs.Prelude.{◌≡◌, false, IfOk};
ghost use Rattle.table_commands.specs.CommandLine.{program_app};
ghost use Rattle.table_commands.specs.Commands.{app_in, rule_in, with_commands, with_options};
ghost use Rattle.clap.specs.Words.{app_of, rule_of};
ghost use Rattle.clap.specs.declared.builder.command.Command.TheViews.{out-Command as fields_of};

use crate::command_options::{
    CommandOption, CommandWords, FRONT_OPTIONS, audit, price, quote, rate, replay, run, serve,
};
use crate::help;
use clap::{Arg, ArgAction, Command};
use std::alloc::{AllocError, Global};

/// The program, with its commands.
#[tactic(auto, unfolding(crate::specs::CommandLine::program_app))]
pub(crate) fn program_command<'a>(alloc: Global) -> Result<Command<'a>, AllocError>
    ensures app { IfOk result (λ command. app_of command ≡ program_app) }
{
    let program = Command::new(alloc, "prepaid")
        .about("Prepaid call control: prices, accounts and calls")
        .version(help::VERSION)
        .no_binary_name(true)
        .subcommand_required(true);
    let program = add_options(alloc, program, FRONT_OPTIONS)?;
    let commands = [price(), replay(), run(), audit(), quote(), rate(), serve()];
    add_commands(alloc, program, &commands)
}

/// The program with these commands added.
fn add_commands<'a>(
    alloc: Global,
    mut program: Command<'a>,
    commands: &[CommandWords],
) -> Result<Command<'a>, AllocError>
    ensures { IfOk result (λ more. app_of more
        ≡ with_commands (app_of program.entry) commands.now) }
{
    for words in commands {
        let command = command_of(alloc, words)?;
        program = program.subcommand(command)?;
    }
    Ok(program)
}

/// A command with its options.
fn command_of<'a>(alloc: Global, words: &CommandWords) -> Result<Command<'a>, AllocError>
    ensures app { IfOk result (λ command. app_of command ≡ app_in words.now) }
    ensures local { IfOk result (λ command. (fields_of command).has_globals ≡ false) }
{
    let command = Command::new(alloc, words.name)
        .about(words.about)
        .override_usage(words.usage)
        .after_help(words.ends);
    add_options(alloc, command, words.options)
}

/// The command with these options added.
fn add_options<'a>(
    alloc: Global,
    mut command: Command<'a>,
    options: &[CommandOption],
) -> Result<Command<'a>, AllocError>
    requires { (fields_of command).has_globals ≡ false }
    ensures app { IfOk result (λ more. app_of more
        ≡ with_options (app_of command.entry) options.now) }
    ensures local { IfOk result (λ more. (fields_of more).has_globals ≡ false) }
{
    for option in options {
        command = command.arg(arg_of(alloc, *option))?;
    }
    Ok(command)
}

/// An option as `clap` knows it.
fn arg_of<'a>(alloc: Global, option: CommandOption) -> Arg<'a>
    ensures rule { rule_of result ≡ rule_in option }
    ensures local { result.global ≡ false }
{
    match option {
        CommandOption::Flag(name, help) => Arg::new(alloc, name)
            .long(name)
            .help(help)
            .action(ArgAction::SetTrue),
        CommandOption::Value(name, value, required, help) => Arg::new(alloc, name)
            .long(name)
            .value_name(value)
            .required(required)
            .help(help)
            .action(ArgAction::Set),
    }
}
