//! The command line, as its parser takes it.
ghost use Rattle.std.specs.Prelude.{◌≡◌, [], IfErr, IfOk, false, map, pos};
ghost use Rattle.clap.specs.Words.{app_of, kind_of, rule_of};
ghost use Rattle.ahci_args.specs.CommandLine.{AreLocal, IsAhci, IsPickOption, IsSubcommand, PickWords, bound_option, check, draw, error_option, flag, identify, index_option, log, number_option, replay, run, top, trace, with_options};

use crate::help::{
    ABOUT, CHECK, CHECK_JSON_HELP, DEPTH_HELP, DRAW, ERROR_HELP, EXAMPLES, FROM_HELP, Help,
    IDENTIFY, IDENTIFY_DEPTH_HELP, IMAGE_HELP, JOBS_HELP, JOURNAL_HELP, JSON_HELP, LBA_HELP, LOG,
    PICK_HELP, RAW_HELP, REPLAY, RUN, RUN_JSON_HELP, SECTORS_HELP, TAG_HELP, TO_HELP, TRACE,
    VERSION, WORKERS_HELP,
};
use clap::builder::ValueParser;
use clap::error::ErrorKind;
use clap::{Arg, ArgAction, Command, Error, value_parser};
use std::alloc::{AllocError, Global};

/// The most workers of a run.
pub const MAX_WORKERS: u32 = 32;

/// The most slots of a port.
pub const MAX_DEPTH: u32 = 32;

/// The most sectors of a disk.
pub const MAX_SECTORS: u32 = 131_072;

/// The last tag of a command.
pub const LAST_TAG: u64 = 31;

/// The last LBA of 48 bits.
pub const LAST_LBA: u64 = 281_474_976_710_655;

/// The last number of 64 bits, which no entry of a journal has.
pub const LAST_ENTRY: u64 = 18_446_744_073_709_551_615;

/// The words that `--pick` takes.
static PICKS: [&str; 3] = ["low", "high", "all"];

/// The whole command line: `ahci` with its subcommands.
pub(crate) fn ahci_command<'a>(alloc: Global) -> Result<Command<'a>, Error>
    ensures ok { IfOk result (λ c. IsAhci (app_of c)) }
    ensures err { IfErr result (λ e. kind_of e ≡ ErrorKind.OutOfMemory) }
{
    let ahci = top_command(alloc)?
        .subcommand(replay_command(alloc)?)?
        .subcommand(trace_command(alloc)?)?
        .subcommand(check_command(alloc)?)?
        .subcommand(draw_command(alloc)?)?
        .subcommand(run_command(alloc)?)?
        .subcommand(identify_command(alloc)?)?
        .subcommand(log_command(alloc)?)?;
    Ok(ahci)
}

/// `ahci` without its subcommands.
fn top_command<'a>(alloc: Global) -> Result<Command<'a>, Error>
    ensures ok { IfOk result (λ c. app_of c ≡ record { top = top; subs = [] }) }
    ensures err { IfErr result (λ e. kind_of e ≡ ErrorKind.OutOfMemory) }
{
    let top = Command::new(alloc, "ahci")
        .bin_name("ahci")?
        .version(VERSION)
        .about(ABOUT)
        .after_help(EXAMPLES)
        .subcommand_required(true);
    Ok(top)
}

/// A subcommand with what help says of it, and with its options.
fn subcommand<'a>(
    alloc: Global,
    name: &'a str,
    help: &'static Help,
    options: Vec<Arg<'a>>,
) -> Result<Command<'a>, AllocError>
    requires { AreLocal options.items }
    ensures { IfOk result (IsSubcommand (with_options name.entry.now (map rule_of options.entry.items))) }
{
    Command::new(alloc, name)
        .about(help.about)
        .long_about(help.long_about)
        .override_usage(help.usage)
        .after_help(help.after_help)
        .args(options)
}

/// The subcommand `replay`, which takes no arguments.
fn replay_command<'a>(alloc: Global) -> Result<Command<'a>, AllocError>
    ensures { IfOk result (IsSubcommand replay) }
{
    subcommand(alloc, "replay", &REPLAY, Vec::new(alloc))
}

/// The subcommand `trace` with its flag.
fn trace_command<'a>(alloc: Global) -> Result<Command<'a>, AllocError>
    ensures { IfOk result (IsSubcommand trace) }
{
    let options = vec![in alloc; flag(alloc, "json", JSON_HELP)]?;
    subcommand(alloc, "trace", &TRACE, options)
}

/// The subcommand `check` with its flags.
fn check_command<'a>(alloc: Global) -> Result<Command<'a>, AllocError>
    ensures { IfOk result (IsSubcommand check) }
{
    let options = vec![in alloc;
        flag(alloc, "jobs", JOBS_HELP),
        flag(alloc, "json", CHECK_JSON_HELP),
    ]?;
    subcommand(alloc, "check", &CHECK, options)
}

/// The subcommand `draw` with its options.
fn draw_command<'a>(alloc: Global) -> Result<Command<'a>, AllocError>
    ensures { IfOk result (IsSubcommand draw) }
{
    let options = vec![in alloc;
        bound_option(alloc, "from", "0", FROM_HELP),
        bound_option(alloc, "to", "18446744073709551615", TO_HELP),
    ]?;
    subcommand(alloc, "draw", &DRAW, options)
}

/// The subcommand `run` with its options, and with its flags.
pub(crate) fn run_command<'a>(alloc: Global) -> Result<Command<'a>, AllocError>
    ensures { (picks : PickWords) × IfOk result (IsSubcommand (run picks)) }
{
    let options = vec![in alloc;
        number_option(alloc, "workers", MAX_WORKERS, WORKERS_HELP),
        number_option(alloc, "depth", MAX_DEPTH, DEPTH_HELP),
        number_option(alloc, "sectors", MAX_SECTORS, SECTORS_HELP),
        pick_option(alloc),
        flag(alloc, "json", RUN_JSON_HELP),
        flag(alloc, "journal", JOURNAL_HELP),
        flag(alloc, "image", IMAGE_HELP),
    ]?;
    subcommand(alloc, "run", &RUN, options)
}

/// The subcommand `identify` with its options.
fn identify_command<'a>(alloc: Global) -> Result<Command<'a>, AllocError>
    ensures { IfOk result (IsSubcommand identify) }
{
    let options = vec![in alloc;
        number_option(alloc, "sectors", MAX_SECTORS, SECTORS_HELP),
        number_option(alloc, "depth", MAX_DEPTH, IDENTIFY_DEPTH_HELP),
        flag(alloc, "raw", RAW_HELP),
    ]?;
    subcommand(alloc, "identify", &IDENTIFY, options)
}

/// The subcommand `log` with its options.
pub(crate) fn log_command<'a>(alloc: Global) -> Result<Command<'a>, AllocError>
    ensures { IfOk result (IsSubcommand log) }
{
    let options = vec![in alloc;
        index_option(alloc, "tag", LAST_TAG, TAG_HELP),
        error_option(alloc),
        index_option(alloc, "lba", LAST_LBA, LBA_HELP),
        flag(alloc, "raw", RAW_HELP),
    ]?;
    subcommand(alloc, "log", &LOG, options)
}

/// An option that has to be given, with a number from 1 to `most`.
fn number_option<'a>(alloc: Global, name: &'a str, most: u32, help: &'a str) -> Arg<'a>
    ensures rule { rule_of result ≡ number_option name.entry.now most }
    ensures local { result.global ≡ false }
{
    Arg::new(alloc, name)
        .long(name)
        .value_name("NUMBER")
        .required(true)
        .value_parser(up_to(most))
        .help(help)
}

/// A number from 1 to `most`.
fn up_to<'a>(most: u32) -> ValueParser<'a>
    ensures { result ≡ ValueParser.Signed (pos 1) (pos most) }
{
    value_parser!(u32).range(1..=i64::from(most))
}

/// An option that has to be given, with a number from 0 to `last`.
fn index_option<'a>(alloc: Global, name: &'a str, last: u64, help: &'a str) -> Arg<'a>
    ensures rule { rule_of result ≡ index_option name.entry.now last }
    ensures local { result.global ≡ false }
{
    Arg::new(alloc, name)
        .long(name)
        .value_name("NUMBER")
        .required(true)
        .value_parser(ValueParser::unsigned(0, last))
        .help(help)
}

/// An option with a number from 0 to `LAST_ENTRY`, which is `default` unless it is given; help doesn't show it.
fn bound_option<'a>(alloc: Global, name: &'a str, default: &'a str, help: &'a str) -> Arg<'a>
    ensures rule { rule_of result ≡ bound_option name.entry.now LAST_ENTRY default.entry.now }
    ensures local { result.global ≡ false }
{
    Arg::new(alloc, name)
        .long(name)
        .value_name("NUMBER")
        .default_value(default)
        .hide_default_value(true)
        .value_parser(ValueParser::unsigned(0, LAST_ENTRY))
        .help(help)
}

/// The option `--error`, whose text is looked at once the words are parsed.
fn error_option<'a>(alloc: Global) -> Arg<'a>
    ensures rule { rule_of result ≡ error_option }
    ensures local { result.global ≡ false }
{
    Arg::new(alloc, "error")
        .long("error")
        .value_name("EE")
        .required(true)
        .help(ERROR_HELP)
}

/// A flag, which takes no value.
fn flag<'a>(alloc: Global, name: &'a str, help: &'a str) -> Arg<'a>
    ensures rule { rule_of result ≡ flag name.entry.now }
    ensures local { result.global ≡ false }
{
    Arg::new(alloc, name)
        .long(name)
        .action(ArgAction::SetTrue)
        .help(help)
}

/// The option `--pick`, which is `low` unless it is given.
fn pick_option<'a>(alloc: Global) -> Arg<'a>
    ensures rule { IsPickOption (rule_of result) }
    ensures local { result.global ≡ false }
{
    Arg::new(alloc, "pick")
        .long("pick")
        .value_name("PICK")
        .default_value("low")
        .value_parser(PICKS.as_slice())
        .help(PICK_HELP)
}
