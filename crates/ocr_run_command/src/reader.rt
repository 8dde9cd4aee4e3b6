// How clap is told to read the words.
ghost use Rattle.std.specs.Prelude.{◌≡◌, IfOk, false};
ghost use Rattle.clap.specs.Words.{app_of, rule_of};
ghost use Rattle.ocr_run_command.specs.Reader.{option_arg, flag_arg, numbers_arg, reader_app};

use clap::{Arg, ArgAction, Command};
use std::alloc::{AllocError, Global};

/// `--name VALUE` or `--name=VALUE`, once.
fn option<'a>(alloc: Global, name: &'a str) -> Arg<'a>
    ensures rule { rule_of result ≡ option_arg name.entry.now }
    ensures local { result.global ≡ false }
{
    Arg::new(alloc, name).long(name).action(ArgAction::Set)
}

/// `--name`, once.
fn flag<'a>(alloc: Global, name: &'a str) -> Arg<'a>
    ensures rule { rule_of result ≡ flag_arg name.entry.now }
    ensures local { result.global ≡ false }
{
    Arg::new(alloc, name).long(name).action(ArgAction::SetTrue)
}

/// The words that name no option, however many. That they are numbers is looked at afterwards.
fn numbers<'a>(alloc: Global) -> Arg<'a>
    ensures rule { rule_of result ≡ numbers_arg }
    ensures local { result.global ≡ false }
{
    Arg::new(alloc, "numbers").action(ArgAction::Append)
}

/// The reader of the words after the command: one for all commands, without help or version.
pub fn reader<'a>(alloc: Global) -> Result<Command<'a>, AllocError>
    ensures { IfOk result (λ c. app_of c ≡ reader_app) }
{
    Command::new(alloc, "ocr")
        .disable_help_flag(true)
        .arg(option(alloc, "workers"))?
        .arg(option(alloc, "objects"))?
        .arg(option(alloc, "events"))?
        .arg(flag(alloc, "summary"))?
        .arg(flag(alloc, "left"))?
        .arg(flag(alloc, "stale"))?
        .arg(flag(alloc, "refused"))?
        .arg(flag(alloc, "races"))?
        .arg(flag(alloc, "blocks"))?
        .arg(flag(alloc, "journal"))?
        .arg(numbers(alloc))
}
