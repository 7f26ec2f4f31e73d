//! The words of the command line: the sizes of the store, and whether its nodes run in threads. It is a crate of its own so that the
//! kit's reader of options stays out of the shell.
#![tactic(auto)]

ghost use Rattle.std.specs.Prelude.{◌≡◌, [], map, false, MatchResult, IfOk, string_bytes};
ghost use Rattle.clap.specs.Words.{rule_of, rows_of, found_of, matches_of as clap_matches, app_of, with_rule};
ghost use Rattle.clap.specs.Faults.{fault_of};
ghost use Rattle.gs_shell_options.specs.Options.{app, named_rule, number_rule, flag_rule, number_in, flag_in, rows_sizes, words_options, ConfiguresAs, SizedAs, RefusesWords};

use clap::error::ErrorKind;
use clap::{Arg, ArgAction, ArgMatches, Command};
use gs_base::{Config, Refusal};
use std::alloc::{AllocError, Global};

/// An option that takes a number.
#[derive(Clone, Copy)]
struct NumberOption<'a> {
    name: &'a str,
    /// What the help calls the number.
    value_name: &'a str,
    /// The number where the option isn't given.
    default: &'a str,
    help: &'a str,
}

/// An option that is named by two dashes and its name.
fn named_argument<'a>(alloc: Global, name: &'a str, help: &'a str, action: ArgAction) -> Arg<'a>
    ensures rule { rule_of result ≡ named_rule name.entry.now action }
    ensures local { result.global ≡ false }
{
    Arg::new(alloc, name).long(name).help(help).action(action)
}

fn number_argument<'a>(alloc: Global, option: NumberOption<'a>) -> Arg<'a>
    ensures rule { rule_of result ≡ number_rule option.entry.name.now option.entry.default.now }
    ensures local { result.global ≡ false }
{
    named_argument(alloc, option.name, option.help, ArgAction::Set)
        .value_name(option.value_name)
        .value_parser(clap::value_parser!(u64))
        .default_value(option.default)
}

fn with_number<'a>(
    alloc: Global,
    command: Command<'a>,
    option: NumberOption<'a>,
) -> Result<Command<'a>, AllocError>
    ensures { IfOk result (λ c. app_of c ≡ with_rule (app_of command.entry) (number_rule option.entry.name.now option.entry.default.now)) }
{
    command.arg(number_argument(alloc, option))
}

fn with_flag<'a>(
    alloc: Global,
    command: Command<'a>,
    name: &'a str,
    help: &'a str,
) -> Result<Command<'a>, AllocError>
    ensures { IfOk result (λ c. app_of c ≡ with_rule (app_of command.entry) (flag_rule name.entry.now)) }
{
    command.arg(named_argument(alloc, name, help, ArgAction::SetTrue))
}

const SERVERS: NumberOption<'static> = NumberOption {
    name: "servers",
    value_name: "N",
    default: "3",
    help: "How many chunkservers there are, 1 to 16",
};

const RACKS: NumberOption<'static> = NumberOption {
    name: "racks",
    value_name: "N",
    default: "1",
    help: "Over how many racks they are spread, 1 to 16",
};

const REPLICAS: NumberOption<'static> = NumberOption {
    name: "replicas",
    value_name: "N",
    default: "3",
    help: "On how many chunkservers a chunk is put, 1 to as many as there are",
};

const CHUNK: NumberOption<'static> = NumberOption {
    name: "chunk",
    value_name: "BYTES",
    default: "67108864",
    help: "The bytes of a chunk, 1 to 1024 whole blocks",
};

const BLOCK: NumberOption<'static> = NumberOption {
    name: "block",
    value_name: "BYTES",
    default: "65536",
    help: "The bytes of a block, 1 to 65536",
};

/// The command of which clap reads the words.
#[tactic(auto, unfolding(crate::specs::Options::app))]
fn command<'a>(alloc: Global) -> Result<Command<'a>, AllocError>
    ensures { IfOk result (λ c. app_of c ≡ app) }
{
    let command = Command::new(alloc, "chunkstore");
    let command = with_number(alloc, command, SERVERS)?;
    let command = with_number(alloc, command, RACKS)?;
    let command = with_number(alloc, command, REPLICAS)?;
    let command = with_number(alloc, command, CHUNK)?;
    let command = with_number(alloc, command, BLOCK)?;
    with_flag(
        alloc,
        command,
        "threads",
        "Runs the master and each chunkserver in threads of their own",
    )
}

/// What clap makes of the words.
fn matches_of<'a>(alloc: Global, words: &'a [String]) -> Result<ArgMatches<'a>, Refusal>
    ensures { let texts = map string_bytes words.entry.now in MatchResult result
        (λ m. (fault_of app texts ≡ []) × (rows_of (found_of m) ≡ clap_matches app texts))
        (λ e. RefusesWords e (fault_of app texts)) }
{
    match command(alloc)?.try_get_matches_from(words) {
        Ok(matches) => Ok(matches),
        Err(error) => match error.kind() {
            ErrorKind::OutOfMemory => Err(Refusal::Memory),
            _ => Err(Refusal::Config),
        },
    }
}

/// The number of an option among those that clap has read. Nothing where it isn't given, or is given as no number of 64 bits.
pub fn number_in(matches: &ArgMatches<'_>, id: &str) -> Option<u64>
    ensures { result ≡ number_in id.now (rows_of (found_of matches.now)) }
{
    matches.get_one::<u64>(id)
}

/// Whether a flag is given.
fn flag_in(matches: &ArgMatches<'_>, id: &str) -> bool
    ensures { result ≡ flag_in id.now (rows_of (found_of matches.now)) }
{
    match matches.get_str(id) {
        Some(text) => text == "true",
        None => false,
    }
}

/// The configuration of the sizes that clap has read.
#[tactic(auto, unfolding(crate::specs::Options::rows_sizes))]
fn config_in(matches: &ArgMatches<'_>) -> Result<Config, Refusal>
    ensures { SizedAs result (rows_sizes (rows_of (found_of matches.now))) }
{
    let servers = number_in(matches, "servers").ok_or(Refusal::Config)?;
    let racks = number_in(matches, "racks").ok_or(Refusal::Config)?;
    let replicas = number_in(matches, "replicas").ok_or(Refusal::Config)?;
    let block = number_in(matches, "block").ok_or(Refusal::Config)?;
    let chunk = number_in(matches, "chunk").ok_or(Refusal::Config)?;
    Config::new(servers, racks, replicas, block, chunk)
}

/// The configuration that the words of the command line name, of which the first is the program's own, and whether the nodes
/// run in threads. `Config` refuses an option that isn't there, one that is given twice, a value that is no whole number or
/// lacks, `--help`, and sizes of which there is no store.
pub fn options(alloc: Global, words: &[String]) -> Result<(Config, bool), Refusal>
    ensures { ConfiguresAs result (words_options (map string_bytes words.now)) }
{
    let matches = matches_of(alloc, words)?;
    let config = config_in(&matches)?;
    Ok((config, flag_in(&matches, "threads")))
}

/// What is wrong with words of which clap finds no fault, and which are refused.
const NO_SUCH_SIZES: &str = "error: there is no store of these sizes\n";

/// What is wrong with words that are refused, or nothing where they ask for help.
fn fault_text(alloc: Global, words: &[String]) -> Result<String, AllocError> {
    match command(alloc)?.try_get_matches_from(words) {
        Ok(_) => String::from_str(alloc, NO_SUCH_SIZES),
        Err(error) => match error.kind() {
            ErrorKind::OutOfMemory => Err(AllocError),
            ErrorKind::DisplayHelp => Ok(String::new(alloc)),
            _ => error.to_string(alloc),
        },
    }
}

/// The text for a person whose words `options` refuses: what is wrong with them, and then each option with its range and
/// its default. Words that ask for help get the options alone.
pub fn explanation(alloc: Global, words: &[String]) -> Result<String, AllocError> {
    let mut text = fault_text(alloc, words)?;
    if !text.is_empty() {
        text.push('\n')?;
    }
    text.push_str(&command(alloc)?.render_help()?)?;
    Ok(text)
}
