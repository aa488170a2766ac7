// The forms of the command line, as commands with values.
ghost use Rattle.std.specs.Prelude.{◌≡◌, false, IfOk};
ghost use Rattle.clap.specs.Words.{app_of, rule_of, with_subcommand};
ghost use Rattle.command_line.specs.Commands.{bench_command, check_command, new_command, program, required, run_command};

use clap::{Arg, Command};
use std::alloc::{AllocError, Global};

/// The program, of which each form is a command, and which answers no request for help.
pub(crate) fn program<'a>(alloc: Global) -> Result<Command<'a>, AllocError>
    ensures { IfOk result (λ c. app_of c ≡ program) }
{
    let base = Command::new(alloc, "nvmhost")
        .no_binary_name(true)
        .disable_help_flag(true)
        .disable_help_subcommand(true)
        .disable_version_flag(true)
        .subcommand_required(true);
    let program = with_new(alloc, base, "new")?;
    let program = with_run(alloc, program)?;
    let program = with_check(alloc, program)?;
    let program = with_bench(alloc, program)?;
    with_new(alloc, program, "newbyte")
}

fn with_new<'a>(
    alloc: Global,
    program: Command<'a>,
    name: &'a str,
) -> Result<Command<'a>, AllocError>
    ensures { IfOk result (λ c. app_of c ≡ with_subcommand (app_of program.entry) (new_command name.entry.now).top) }
{
    let command = Command::new(alloc, name)
        .arg(required(alloc, "IMAGE"))?
        .arg(required(alloc, "BLOCKS"))?
        .arg(required(alloc, "VPAGES"))?
        .arg(required(alloc, "FPAGES"))?;
    program.subcommand(command)
}

fn with_run<'a>(alloc: Global, program: Command<'a>) -> Result<Command<'a>, AllocError>
    ensures { IfOk result (λ c. app_of c ≡ with_subcommand (app_of program.entry) run_command.top) }
{
    let command = Command::new(alloc, "run")
        .arg(required(alloc, "IN"))?
        .arg(required(alloc, "OUT"))?;
    program.subcommand(command)
}

fn with_check<'a>(alloc: Global, program: Command<'a>) -> Result<Command<'a>, AllocError>
    ensures { IfOk result (λ c. app_of c ≡ with_subcommand (app_of program.entry) check_command.top) }
{
    let command = Command::new(alloc, "check").arg(required(alloc, "IN"))?;
    program.subcommand(command)
}

fn with_bench<'a>(alloc: Global, program: Command<'a>) -> Result<Command<'a>, AllocError>
    ensures { IfOk result (λ c. app_of c ≡ with_subcommand (app_of program.entry) bench_command.top) }
{
    let command = Command::new(alloc, "bench")
        .arg(required(alloc, "SEED"))?
        .arg(required(alloc, "N"))?;
    program.subcommand(command)
}

// A value that has to be given.
fn required<'a>(alloc: Global, name: &'a str) -> Arg<'a>
    ensures rule { rule_of result ≡ required name.entry.now }
    ensures local { result.global ≡ false }
{
    Arg::new(alloc, name).required(true)
}
