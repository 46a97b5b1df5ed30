ghost use Rattle.std.specs.{Prelude.{◌≡◌, ℕ, IfErr, IfOk, codes, map}, String.{string_bytes}};
ghost use Rattle.clap.specs.Words.{FailsBy, found_of, kind_of, rows_of};
ghost use Rattle.ahci_args.specs.{
  Asking.{AsksFor, AsksReplay, FailsByUsage, HasFlag, HasNumber, HasPick, IsOf, Takes, TakesBounds, TakesFlag, TakesKind, TakesNumber, TakesPick, TakesPlace, TakesRun, TakesSize},
  CommandLine.{last_entry},
  Usage.{error_byte, error_fault, form_fault, form_in, value_fault},
};

use crate::command::{ahci_command, log_command, run_command};
use crate::error_byte::hex_byte;
use crate::forms::form_by;
use crate::help::{NOT_A_BYTE, TWO_FORMS};
use crate::pick::Pick;
use crate::request::Asked;
use crate::run_form::RunForm;
use clap::error::ErrorKind;
use clap::{ArgMatches, Command, Error};
use std::alloc::Global;

/// Reads a command line, whose first word is the program's name. Help and the version that were
/// asked for come as an error too, as `clap` has it: its `exit_code` is then 0.
pub fn asked<'a>(alloc: Global, words: &'a [String]) -> Result<Asked, Error>
    ensures ok { IfOk result (λ asked. AsksFor (map string_bytes words.now) asked) }
    ensures memory { IfErr result (λ e. AsksReplay (map string_bytes words.now) → kind_of e ≡ ErrorKind.OutOfMemory) }
    ensures faults { FailsByUsage (map string_bytes words.now) result }
{
    let matches = ahci_command(alloc)?.try_get_matches_from(words)?;
    match matches.subcommand() {
        Some((name, options)) => subcommand_asked(alloc, name, options),
        None => unreachable!(), // the parser wants a subcommand
    }
}

/// What the subcommand `name` asks for, with its options.
fn subcommand_asked(alloc: Global, name: &str, options: &ArgMatches<'_>) -> Result<Asked, Error>
    requires { Takes name.now (rows_of (found_of options.now)) }
    ensures ok { IfOk result (λ asked. IsOf name.now (rows_of (found_of options.now)) asked) }
    ensures faults { FailsBy (value_fault (Some (name.now, rows_of (found_of options.now)))) result }
{
    match name {
        "run" => run_asked(alloc, options),
        "identify" => Ok(identify_asked(options)),
        "log" => log_asked(alloc, options),
        "trace" => Ok(trace_asked(options)),
        "check" => Ok(check_asked(options)),
        "draw" => Ok(draw_asked(options)),
        _ => Ok(Asked::Replay),
    }
}

/// The run that its options ask for. That at most one of its flags is given is left to this call.
fn run_asked(alloc: Global, options: &ArgMatches<'_>) -> Result<Asked, Error>
    requires { TakesRun (rows_of (found_of options.now)) }
    ensures ok { IfOk result (λ asked. IsOf (codes "run") (rows_of (found_of options.now)) asked) }
    ensures faults { FailsBy (form_fault (rows_of (found_of options.now))) result }
{
    let Some(form) = form_of(options) else {
        let run = run_command(alloc)?;
        return Err(usage_fault(run, "ahci run", ErrorKind::ArgumentConflict, TWO_FORMS)?);
    };
    Ok(Asked::Run {
        workers: number(options, "workers") as u32,
        depth: number(options, "depth") as u32,
        sectors: number(options, "sectors") as u32,
        pick: pick(options),
        form,
    })
}

/// The form that the flags of a run ask for, or none where they are in conflict.
fn form_of(options: &ArgMatches<'_>) -> Option<RunForm>
    requires { TakesRun (rows_of (found_of options.now)) }
    ensures { result ≡ form_in (rows_of (found_of options.now)) }
{
    form_by(
        flag(options, "json"),
        flag(options, "journal"),
        flag(options, "image"),
    )
}

/// The identify page that its options ask for.
fn identify_asked(options: &ArgMatches<'_>) -> Asked
    requires { TakesSize (rows_of (found_of options.now)) }
    ensures { IsOf (codes "identify") (rows_of (found_of options.now)) result }
{
    Asked::Identify {
        sectors: number(options, "sectors") as u32,
        depth: number(options, "depth") as u32,
        raw: flag(options, "raw"),
    }
}

/// The log's page that its options ask for. What `--error` has to be is left to this call.
fn log_asked(alloc: Global, options: &ArgMatches<'_>) -> Result<Asked, Error>
    requires { TakesPlace (rows_of (found_of options.now)) }
    ensures ok { IfOk result (λ asked. IsOf (codes "log") (rows_of (found_of options.now)) asked) }
    ensures faults { FailsBy (error_fault (rows_of (found_of options.now))) result }
{
    let error = log_error(alloc, options)?;
    Ok(Asked::Log {
        tag: number(options, "tag") as u8,
        error,
        lba: number(options, "lba"),
        raw: flag(options, "raw"),
    })
}

/// The error of the log's page. Where `--error` spells no byte, it is a usage fault.
fn log_error(alloc: Global, options: &ArgMatches<'_>) -> Result<u8, Error>
    ensures ok { IfOk result (λ byte. error_byte (rows_of (found_of options.now)) ≡ Some byte) }
    ensures faults { FailsBy (error_fault (rows_of (found_of options.now))) result }
{
    if let Some(byte) = error(options) {
        return Ok(byte);
    }
    let log = log_command(alloc)?;
    Err(usage_fault(log, "ahci log", ErrorKind::ValueValidation, NOT_A_BYTE)?)
}

/// The trace that its flag asks for.
fn trace_asked(options: &ArgMatches<'_>) -> Asked
    requires { TakesFlag (rows_of (found_of options.now)) (codes "json") }
    ensures { IsOf (codes "trace") (rows_of (found_of options.now)) result }
{
    Asked::Trace {
        json: flag(options, "json"),
    }
}

/// The check that its flags ask for.
fn check_asked(options: &ArgMatches<'_>) -> Asked
    requires { TakesKind (rows_of (found_of options.now)) }
    ensures { IsOf (codes "check") (rows_of (found_of options.now)) result }
{
    let json = flag(options, "json");
    Asked::Check {
        jobs: flag(options, "jobs"),
        json,
    }
}

/// The picture that its options ask for.
fn draw_asked(options: &ArgMatches<'_>) -> Asked
    requires { TakesBounds (rows_of (found_of options.now)) }
    ensures { IsOf (codes "draw") (rows_of (found_of options.now)) result }
{
    Asked::Draw {
        from: number(options, "from"),
        to: number(options, "to"),
    }
}

/// The number of an option that the parser has taken.
fn number(options: &ArgMatches<'_>, name: &str) -> u64
    requires { TakesNumber (rows_of (found_of options.now)) name.now 0 last_entry }
    ensures { (first last n : ℕ) → HasNumber (rows_of (found_of options.now)) name.now first last n → result ≡ n }
{
    options.get_one::<u64>(name).unwrap()
}

/// The value of `--pick`, which is one of its words or was left out.
fn pick(options: &ArgMatches<'_>) -> Pick
    requires { TakesPick (rows_of (found_of options.now)) }
    ensures { HasPick (rows_of (found_of options.now)) result }
{
    match options.get_str("pick").unwrap() {
        "low" => Pick::Low,
        "high" => Pick::High,
        "all" => Pick::All,
        _ => unreachable!(),
    }
}

/// The byte that `--error` spells, or none.
fn error(options: &ArgMatches<'_>) -> Option<u8>
    ensures { result ≡ error_byte (rows_of (found_of options.now)) }
{
    hex_byte(options.get_str("error")?)
}

/// Whether a flag was given.
fn flag(options: &ArgMatches<'_>, name: &str) -> bool
    requires { TakesFlag (rows_of (found_of options.now)) name.now }
    ensures { HasFlag (rows_of (found_of options.now)) name.now result }
{
    options.get_flag(name)
}

/// A usage fault of a subcommand, whose name the usage has.
fn usage_fault<'a>(
    command: Command<'a>,
    name: &'a str,
    kind: ErrorKind,
    text: &str,
) -> Result<Error, Error>
    ensures ok { IfOk result (λ e. kind_of e ≡ kind) }
    ensures err { IfErr result (λ e. kind_of e ≡ ErrorKind.OutOfMemory) }
{
    let mut command = command.bin_name(name)?;
    Ok(command.error(kind, text)?)
}

/// The usage fault of a word that isn't text in UTF-8, which `asked` can't be given.
pub fn not_text(alloc: Global) -> Result<Error, Error>
    ensures ok { IfOk result (λ e. kind_of e ≡ ErrorKind.InvalidValue) }
    ensures err { IfErr result (λ e. kind_of e ≡ ErrorKind.OutOfMemory) }
{
    let mut command = ahci_command(alloc)?;
    Ok(command.error(ErrorKind::InvalidValue, "an argument is not text in UTF-8")?)
}
