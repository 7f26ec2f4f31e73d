//! The command line of a store that is kept: its file, the sizes that are asked for, whether it has to be there already, and what is to be
//! done with it.
#![tactic(auto)]

ghost use Rattle.std.specs.Prelude.{◌≡◌, [], map, false, is_some, not, MatchResult, IfOk, string_bytes};
ghost use Rattle.clap.specs.Words.{rule_of, rows_of, found_of, matches_of as clap_matches, app_of, with_rule};
ghost use Rattle.clap.specs.Faults.{fault_of};
ghost use Rattle.gs_base.specs.Configured.{Configured};
ghost use Rattle.gs_shell_options.specs.Options.{RefusesWords, flag_in, named_rule};
ghost use Rattle.gs_keep_options.specs.Sizes.{Tells, difference, fits, given_or, is_given_as};
ghost use Rattle.gs_keep_options.specs.Words.{AskedAs, ShownAs, app, file_rule, looking_app, mode_app, mode_in, number_rule, sized_app, sizes_in, task_of, times_of, words_asked};

use clap::error::ErrorKind;
use clap::{Arg, ArgAction, ArgMatches, Command};
use gs_base::{Config, Refusal};
use gs_shell_options::number_in;
use std::alloc::{AllocError, Global};

/// The sizes that are asked for. What isn't given may be anything.
#[derive(Clone, Copy, Debug, PartialEq, Eq)]
pub struct Sizes {
    pub servers: Option<u64>,
    pub racks: Option<u64>,
    pub replicas: Option<u64>,
    pub chunk: Option<u64>,
    pub block: Option<u64>,
}

/// A size that differs from what is asked for.
#[derive(Clone, Copy, Debug, PartialEq, Eq)]
pub struct Difference {
    /// The name of the option.
    pub name: &'static str,
    /// What the size is.
    pub size: u64,
}

/// What is to be done with a store, as the options say it.
#[derive(Clone, Copy, Debug, PartialEq, Eq)]
pub struct Mode {
    /// The file is looked at, and nothing is answered.
    pub is_check: bool,
    /// Only lines that look are answered.
    pub is_read_only: bool,
    /// The names that stand are written, and nothing is answered.
    pub is_names: bool,
    /// Each line is answered, and nothing is kept.
    pub is_try: bool,
    /// Lines that harm a store are answered too.
    pub is_lab: bool,
    /// The line of the file after which the store is looked at as it stood.
    pub upto: Option<u64>,
    /// An image is taken of what stands, and nothing is answered.
    pub is_image: bool,
    /// How many times as long as its image a log is when another one is taken.
    pub image_at: Option<u64>,
}

/// What is to be done with a store.
#[derive(Clone, Copy, Debug, PartialEq, Eq)]
pub enum Task {
    /// Lines are answered, and kept.
    Serve,
    /// The file is looked at.
    Check,
    /// Lines that look are answered, and nothing is kept: of the whole store, or of that which stood after a line of the file.
    Look(Option<u64>),
    /// What stands at each path is written: now, or behind a line of the file.
    Names(Option<u64>),
    /// Each line is answered, and nothing is kept: of the whole store, or of that which stood after a line of the file.
    Try(Option<u64>),
    /// An image is taken of what stands.
    Image,
}

impl Mode {
    /// What is to be done: a check, if it is asked for, whatever else is, then names, and then what changes nothing.
    pub fn task(&self) -> Task
        ensures { result ≡ task_of self.now }
    {
        if self.is_check {
            return Task::Check;
        }
        if self.is_names {
            return Task::Names(self.upto);
        }
        if self.is_try && !self.is_read_only {
            return Task::Try(self.upto);
        }
        if self.is_read_only || self.upto.is_some() {
            return Task::Look(self.upto);
        }
        if self.is_image {
            return Task::Image;
        }
        Task::Serve
    }

    /// How many times as long as its image a log is when another one is taken: 2, where nothing else is asked for. With 0 none is
    /// taken.
    pub fn times(&self) -> u64
        ensures { result ≡ times_of self.now }
    {
        self.image_at.unwrap_or(2)
    }
}

/// What a command line asks for.
#[derive(Debug, Drop)]
pub struct Asked {
    /// The file that the store is kept in.
    pub path: String,
    pub sizes: Sizes,
    /// No new store is made.
    pub is_existing: bool,
    pub mode: Mode,
}

/// What is to be shown for words that ask for no store.
#[derive(Clone, Copy, Debug, PartialEq, Eq)]
pub enum Shown {
    Help,
    Version,
    /// What is wrong with them.
    Mistake,
}

/// Whether a size is the one that is asked for, if one is.
fn is_given_as(given: Option<u64>, size: u64) -> bool
    ensures { result ≡ is_given_as given size }
{
    match given {
        Some(wanted) => wanted == size,
        None => true,
    }
}

impl Sizes {
    /// The configuration of a new store, where 3 servers in 1 rack, 3 replicas, chunks of 67,108,864 bytes and blocks of 65,536 bytes
    /// stand for what isn't given. `Config` where there is no store of these sizes.
    pub fn config(&self) -> Result<Config, Refusal>
        ensures { Configured (given_or self.now.servers 3) (given_or self.now.racks 1) (given_or self.now.replicas 3)
            (given_or self.now.block 65536) (given_or self.now.chunk 67108864) result }
    {
        Config::new(
            self.servers.unwrap_or(3),
            self.racks.unwrap_or(1),
            self.replicas.unwrap_or(3),
            self.block.unwrap_or(65_536),
            self.chunk.unwrap_or(67_108_864),
        )
    }

    /// The first size of a store that differs from what is asked for.
    pub fn difference(&self, config: &Config) -> Option<Difference>
        ensures first { Tells result (difference self.now config.now) }
        ensures some { is_some result ≡ not (fits self.now config.now) }
    {
        if !is_given_as(self.servers, config.servers) {
            return Some(Difference {
                name: "servers",
                size: config.servers,
            });
        }
        if !is_given_as(self.racks, config.racks) {
            return Some(Difference {
                name: "racks",
                size: config.racks,
            });
        }
        if !is_given_as(self.replicas, config.replicas) {
            return Some(Difference {
                name: "replicas",
                size: config.replicas,
            });
        }
        if !is_given_as(self.chunk, config.chunk) {
            return Some(Difference {
                name: "chunk",
                size: config.chunk,
            });
        }
        if !is_given_as(self.block, config.block) {
            return Some(Difference {
                name: "block",
                size: config.block,
            });
        }
        None
    }
}

/// An option that takes a number.
#[derive(Clone, Copy)]
struct NumberOption<'a> {
    name: &'a str,
    /// What the help calls the number.
    value_name: &'a str,
    help: &'a str,
}

fn number_argument<'a>(alloc: Global, option: NumberOption<'a>) -> Arg<'a>
    ensures rule { rule_of result ≡ number_rule option.entry.name.now }
    ensures local { result.global ≡ false }
{
    Arg::new(alloc, option.name)
        .long(option.name)
        .help(option.help)
        .action(ArgAction::Set)
        .value_name(option.value_name)
        .value_parser(clap::value_parser!(u64))
}

fn with_number<'a>(
    alloc: Global,
    command: Command<'a>,
    option: NumberOption<'a>,
) -> Result<Command<'a>, AllocError>
    ensures { IfOk result (λ c. app_of c ≡ with_rule (app_of command.entry) (number_rule option.entry.name.now)) }
{
    command.arg(number_argument(alloc, option))
}

fn with_flag<'a>(
    alloc: Global,
    command: Command<'a>,
    name: &'a str,
    help: &'a str,
    action: ArgAction,
) -> Result<Command<'a>, AllocError>
    ensures { IfOk result (λ c. app_of c ≡ with_rule (app_of command.entry) (named_rule name.entry.now action)) }
{
    command.arg(Arg::new(alloc, name).long(name).help(help).action(action))
}

const SERVERS: NumberOption<'static> = NumberOption {
    name: "servers",
    value_name: "N",
    help: "How many chunkservers there are, 1 to 16; of a new store 3",
};

const RACKS: NumberOption<'static> = NumberOption {
    name: "racks",
    value_name: "N",
    help: "Over how many racks they are spread, 1 to 16; of a new store 1",
};

const REPLICAS: NumberOption<'static> = NumberOption {
    name: "replicas",
    value_name: "N",
    help: "On how many chunkservers a chunk is put, 1 to as many as there are; of a new store 3",
};

const CHUNK: NumberOption<'static> = NumberOption {
    name: "chunk",
    value_name: "BYTES",
    help: "The bytes of a chunk, 1 to 1024 whole blocks; of a new store 67108864",
};

const BLOCK: NumberOption<'static> = NumberOption {
    name: "block",
    value_name: "BYTES",
    help: "The bytes of a block, 1 to 65536; of a new store 65536",
};

const FILE_HELP: &str =
    "The file that the store is kept in, which is made if it isn't there. Sizes that are given must be its own";

const EXISTING_HELP: &str = "Makes no store where none is";

const CHECK_HELP: &str =
    "Looks whether FILE is whole and says what a start would do; nothing is locked or changed";

const READ_ONLY_HELP: &str = "Answers lines that only look, and neither keeps nor changes anything";

const NAMES_HELP: &str =
    "Writes what stands at each path, hidden names too, and neither keeps nor changes anything";

const TRY_HELP: &str =
    "Answers each line, those that harm the store too, in memory alone: nothing is kept or changed";

const LAB_HELP: &str =
    "Answers lines that harm the store too: lose, damage, hold, deliver and restart";

const UPTO: NumberOption<'static> = NumberOption {
    name: "upto",
    value_name: "LINE",
    help: "Answers lines that only look, of the store as it stood after this line of FILE",
};

const IMAGE_HELP: &str =
    "Writes down the store as it stands, so that a start runs the lines from here on alone, and answers nothing";

const IMAGE_AT: NumberOption<'static> = NumberOption {
    name: "image-at",
    value_name: "TIMES",
    help: "How many times as long as its image FILE is when the store is written down by itself, at an end and at a start; else 2, and 0 is never",
};

const VERSION_HELP: &str = "Shows the program's name and the form of the file";

/// The word that isn't an option's.
fn file_argument<'a>(alloc: Global) -> Arg<'a>
    ensures rule { rule_of result ≡ file_rule }
    ensures local { result.global ≡ false }
{
    Arg::new(alloc, "FILE")
        .required(true)
        .help(FILE_HELP)
        .action(ArgAction::Set)
}

/// The command with its file and its sizes.
#[tactic(auto, unfolding(crate::specs::Words::sized_app))]
fn sized_command<'a>(alloc: Global) -> Result<Command<'a>, AllocError>
    ensures { IfOk result (λ c. app_of c ≡ sized_app) }
{
    let command = Command::new(alloc, "chunkkeep").arg(file_argument(alloc))?;
    let command = with_number(alloc, command, SERVERS)?;
    let command = with_number(alloc, command, RACKS)?;
    let command = with_number(alloc, command, REPLICAS)?;
    let command = with_number(alloc, command, CHUNK)?;
    with_number(alloc, command, BLOCK)
}

/// The command with its file, its sizes, and what of a store is looked at.
#[tactic(auto, unfolding(crate::specs::Words::looking_app))]
fn looking_command<'a>(alloc: Global) -> Result<Command<'a>, AllocError>
    ensures { IfOk result (λ c. app_of c ≡ looking_app) }
{
    let command = sized_command(alloc)?;
    let command = with_flag(alloc, command, "check", CHECK_HELP, ArgAction::SetTrue)?;
    let command = with_flag(
        alloc,
        command,
        "read-only",
        READ_ONLY_HELP,
        ArgAction::SetTrue,
    )?;
    let command = with_flag(alloc, command, "names", NAMES_HELP, ArgAction::SetTrue)?;
    with_flag(alloc, command, "try", TRY_HELP, ArgAction::SetTrue)
}

/// The command with its file, its sizes, and what is to be done.
#[tactic(auto, unfolding(crate::specs::Words::mode_app))]
fn mode_command<'a>(alloc: Global) -> Result<Command<'a>, AllocError>
    ensures { IfOk result (λ c. app_of c ≡ mode_app) }
{
    let command = looking_command(alloc)?;
    let command = with_flag(alloc, command, "lab", LAB_HELP, ArgAction::SetTrue)?;
    let command = with_number(alloc, command, UPTO)?;
    let command = with_flag(alloc, command, "image", IMAGE_HELP, ArgAction::SetTrue)?;
    with_number(alloc, command, IMAGE_AT)
}

/// The command of which clap reads the words.
#[tactic(auto, unfolding(crate::specs::Words::app))]
fn command<'a>(alloc: Global) -> Result<Command<'a>, AllocError>
    ensures { IfOk result (λ c. app_of c ≡ app) }
{
    let command = mode_command(alloc)?;
    let command = with_flag(
        alloc,
        command,
        "existing",
        EXISTING_HELP,
        ArgAction::SetTrue,
    )?;
    with_flag(alloc, command, "version", VERSION_HELP, ArgAction::Version)
}

/// What clap makes of the words.
fn matches_of<'a>(alloc: Global, words: &'a [String]) -> Result<ArgMatches<'a>, Refusal>
    ensures { let texts = map string_bytes words.entry.now in MatchResult result
        (λ m. (fault_of app texts ≡ []) × (rows_of (found_of m) ≡ clap_matches app texts))
        (λ e. RefusesWords e (fault_of app texts)) }
{
    match command(alloc)?.try_get_matches_from(words) {
        Ok(matches) => Ok(matches),
        Err(error) => match error.kind() {
            ErrorKind::OutOfMemory => Err(Refusal::Memory),
            _ => Err(Refusal::Config),
        },
    }
}

/// The sizes that clap has read.
fn sizes_in(matches: &ArgMatches<'_>) -> Sizes
    ensures { result ≡ sizes_in (rows_of (found_of matches.now)) }
{
    Sizes {
        servers: number_in(matches, "servers"),
        racks: number_in(matches, "racks"),
        replicas: number_in(matches, "replicas"),
        chunk: number_in(matches, "chunk"),
        block: number_in(matches, "block"),
    }
}

/// Whether a flag is given.
fn flag_in(matches: &ArgMatches<'_>, id: &str) -> bool
    ensures { result ≡ flag_in id.now (rows_of (found_of matches.now)) }
{
    match matches.get_str(id) {
        Some(text) => text == "true",
        None => false,
    }
}

/// What is to be done, as clap has read it.
fn mode_in(matches: &ArgMatches<'_>) -> Mode
    ensures { result ≡ mode_in (rows_of (found_of matches.now)) }
{
    Mode {
        is_check: flag_in(matches, "check"),
        is_read_only: flag_in(matches, "read-only"),
        is_names: flag_in(matches, "names"),
        is_try: flag_in(matches, "try"),
        is_lab: flag_in(matches, "lab"),
        upto: number_in(matches, "upto"),
        is_image: flag_in(matches, "image"),
        image_at: number_in(matches, "image-at"),
    }
}

/// What the words of the command line ask for, of which the first is the program's own. `Config` refuses words without a file or with two,
/// an option that isn't there, one that is given twice, a value that is no whole number or lacks, `--help`, and `--version`.
pub fn read_words(alloc: Global, words: &[String]) -> Result<Asked, Refusal>
    ensures { AskedAs result (words_asked (map string_bytes words.now)) }
{
    let matches = matches_of(alloc, words)?;
    let Some(path) = matches.get_str("FILE") else {
        return Err(Refusal::Config);
    };
    Ok(Asked {
        path: String::from_str(alloc, path)?,
        sizes: sizes_in(&matches),
        is_existing: flag_in(&matches, "existing"),
        mode: mode_in(&matches),
    })
}

/// What is to be shown for words that `read_words` refuses as `Config`.
pub fn what_to_show(alloc: Global, words: &[String]) -> Result<Shown, AllocError>
    ensures { IfOk result (λ s. ShownAs s (fault_of app (map string_bytes words.entry.now))) }
{
    match command(alloc)?.try_get_matches_from(words) {
        Ok(_) => Ok(Shown::Mistake),
        Err(error) => match error.kind() {
            ErrorKind::OutOfMemory => Err(AllocError),
            ErrorKind::DisplayHelp => Ok(Shown::Help),
            ErrorKind::DisplayVersion => Ok(Shown::Version),
            _ => Ok(Shown::Mistake),
        },
    }
}

/// What is wrong with words that are refused, or nothing where they ask for help.
fn fault_text(alloc: Global, words: &[String]) -> Result<String, AllocError> {
    match command(alloc)?.try_get_matches_from(words) {
        Ok(_) => Ok(String::new(alloc)),
        Err(error) => match error.kind() {
            ErrorKind::OutOfMemory => Err(AllocError),
            ErrorKind::DisplayHelp => Ok(String::new(alloc)),
            _ => error.to_string(alloc),
        },
    }
}

/// The text for a person whose words `read_words` refuses: what is wrong with them, and then the file and each option. Words that ask for help
/// get these alone.
pub fn explanation(alloc: Global, words: &[String]) -> Result<String, AllocError> {
    let mut text = fault_text(alloc, words)?;
    if !text.is_empty() {
        text.push('\n')?;
    }
    text.push_str(&command(alloc)?.render_help()?)?;
    Ok(text)
}
