//! The words of the command line, read by `clap`.
ghost use Rattle.std.specs.Prelude.{◌≡◌, ℕ, List, [], IfOk, IfErr, map, option_map, unwrap_or};
ghost use Rattle.std.specs.Prelude.{false};
ghost use Rattle.std.specs.Borrow.{Bor};
ghost use Rattle.clap.specs.Words.{app_of, rule_of, found_of, rows_of};
ghost use Rattle.tcl_shell.specs.CommandLine.{command, named, styles, limit_rule, safe_rule};
ghost use Rattle.tcl_shell.specs.CommandLine.{integers_rule, file_rule, arguments_rule, IsRead};
ghost use Rattle.tcl_shell.specs.CommandLine.{IsNotRead, IsParsed, IsMisparsed, Tells, Says};
ghost use Rattle.tcl_shell.specs.CommandLine.{LimitIs, style_of};

use crate::ending::Ending;
use clap::error::ErrorKind;
use clap::{Arg, ArgAction, ArgMatches, Command, Error, value_parser};
use std::alloc::{AllocError, Global};
use tcl_text::integer::Integers;
use tcl_text::text::Text;

/// How many counted steps a script may make where the command line doesn't say.
const USUAL_LIMIT: u64 = 10_000_000;

/// What stands for the standard input in the place of a file's name.
pub const STANDARD_INPUT: &str = "-";

/// The version of the program and of its libraries.
const VERSION: &str = "0.1.0";

/// What help says of the program above its usage.
const ABOUT: &str = "Runs a Tcl script that nobody has to trust, within a limit of steps";

/// What help shows below the options.
const EXAMPLES: &str = "Examples:
  tclsafe sums.tcl 3 4                 the script's argv is 3 4
  tclsafe --safe --limit 1000 - <job   a stranger's script, from standard input";

/// The two styles of integers, by their words.
static STYLES: [&str; 2] = ["8", "9"];

/// What the words of the command line ask for.
#[derive(Drop)]
pub struct Options<'a> {
    /// How many counted steps the script may make.
    pub limit: u64,
    /// Whether it runs in a safe child `main` of the root.
    pub is_safe: bool,
    /// How integer texts are read.
    pub integers: Integers,
    /// The script's file, or `-`.
    pub file: &'a str,
    /// The script's own arguments.
    pub arguments: Vec<&'a str>,
}

impl<'a> Options<'a> {
    /// What the words ask for, of which the first is the program's name.
    ///
    /// # Errors
    /// Help or the version where that is asked for, a mistake in the words, and want of memory.
    pub fn read(alloc: Global, words: &'a [&'a str]) -> Result<Options<'a>, Ending>
        ensures read { IfOk result
            (λ options. IsRead (map (λ word. word.now) words.entry.now) options) }
        ensures mistake { IfErr result
            (λ ending. IsNotRead (map (λ word. word.now) words.entry.now) ending) }
    {
        let matches = match parsed(alloc, words) {
            Ok(matches) => matches,
            Err(error) => return Err(misread(alloc, &error)),
        };
        match options_of(alloc, &matches) {
            Ok(options) => Ok(options),
            Err(_) => Err(Ending::OutOfMemory),
        }
    }
}

/// The option `--limit N`.
fn limit_option<'a>(alloc: Global) -> Arg<'a>
    ensures rule { rule_of result ≡ limit_rule }
    ensures local { result.global ≡ false }
{
    Arg::new(alloc, "limit")
        .long("limit")
        .value_name("N")
        .value_parser(value_parser!(u64).range(0..=1_000_000_000_000))
        .help("The most steps that the script may make [default: 10000000]")
}

/// The option `--safe`.
fn safe_option<'a>(alloc: Global) -> Arg<'a>
    ensures rule { rule_of result ≡ safe_rule }
    ensures local { result.global ≡ false }
{
    Arg::new(alloc, "safe")
        .long("safe")
        .action(ArgAction::SetTrue)
        .help("Evaluate the script in a safe child interpreter")
}

/// The option `--integers STYLE`.
fn integers_option<'a>(alloc: Global) -> Arg<'a>
    ensures rule { (names : Bor (List (Bor (List ℕ)))) ×
        (map (λ name. name.now) names.now ≡ styles) × (rule_of result ≡ integers_rule names) }
    ensures local { result.global ≡ false }
{
    Arg::new(alloc, "integers")
        .long("integers")
        .value_name("STYLE")
        .value_parser(STYLES.as_slice())
        .help("How integer texts are read: as Tcl 8 does, or as Tcl 9 [default: 8]")
}

/// The name of the script's file.
fn file_argument<'a>(alloc: Global) -> Arg<'a>
    ensures rule { rule_of result ≡ file_rule }
    ensures local { result.global ≡ false }
{
    Arg::new(alloc, "FILE").help("The script; standard input where it is missing or -")
}

/// The script's arguments.
fn arguments_argument<'a>(alloc: Global) -> Arg<'a>
    ensures rule { rule_of result ≡ arguments_rule }
    ensures local { result.global ≡ false }
{
    Arg::new(alloc, "ARG")
        .action(ArgAction::Append)
        .help("The script's arguments, its list argv")
}

/// The program's name, its version, and what help says besides the options.
fn named<'a>(alloc: Global) -> Command<'a>
    ensures { app_of result ≡ named }
{
    Command::new(alloc, "tclsafe")
        .version(VERSION)
        .about(ABOUT)
        .after_help(EXAMPLES)
}

/// The command line's own description.
fn command<'a>(alloc: Global) -> Result<Command<'a>, AllocError>
    ensures { IfOk result (λ made. (names : Bor (List (Bor (List ℕ)))) ×
        (map (λ name. name.now) names.now ≡ styles) × (app_of made ≡ command names)) }
{
    named(alloc)
        .arg(limit_option(alloc))?
        .arg(safe_option(alloc))?
        .arg(integers_option(alloc))?
        .arg(file_argument(alloc))?
        .arg(arguments_argument(alloc))
}

/// What the words match.
fn parsed<'a>(alloc: Global, words: &'a [&'a str]) -> Result<ArgMatches<'a>, Error>
    ensures parsed { IfOk result
        (λ matches. IsParsed (map (λ word. word.now) words.entry.now)
        (rows_of (found_of matches))) }
    ensures mistake { IfErr result
        (λ error. IsMisparsed (map (λ word. word.now) words.entry.now) error) }
{
    command(alloc)?.try_get_matches_from(words)
}

/// What the matches say.
fn options_of<'a>(alloc: Global, matches: &ArgMatches<'a>) -> Result<Options<'a>, AllocError>
    ensures { IfOk result (λ options. Says (rows_of (found_of matches.now)) options) }
{
    Ok(Options {
        limit: limit_of(matches.get_str("limit"))?,
        is_safe: matches.get_flag("safe"),
        integers: style_of(matches.get_str("integers")),
        file: matches.get_str("FILE").unwrap_or(STANDARD_INPUT),
        arguments: arguments_of(alloc, matches.get_strs("ARG"))?,
    })
}

/// How many steps a word stands for, of which clap has seen that it is a number in its range.
fn limit_of(word: Option<&str>) -> Result<u64, AllocError>
    ensures { IfOk result (λ limit. LimitIs (option_map (λ text. text.now) word.entry) limit) }
{
    match word {
        None => Ok(USUAL_LIMIT),
        Some(text) => match text.parse::<u64>() {
            Ok(limit) => Ok(limit),
            Err(_) => Err(AllocError),
        },
    }
}

/// The style of integers that a word names.
fn style_of(word: Option<&str>) -> Integers
    ensures { result ≡ style_of (option_map (λ text. text.now) word.entry) }
{
    match word {
        Some("9") => Integers::Tcl9,
        Some(_) | None => Integers::Tcl8,
    }
}

/// The script's arguments.
fn arguments_of<'a>(alloc: Global, words: Option<&[&'a str]>) -> Result<Vec<&'a str>, AllocError>
    ensures { IfOk result (λ made. map
        (λ word. word.now) made.items ≡ unwrap_or
        (option_map (λ all. map (λ word. word.now) all.now) words.entry) []) }
{
    match words {
        Some(words) => Vec::from_slice(alloc, words),
        None => Ok(Vec::new(alloc)),
    }
}

/// What is told of an error of the command line: help or the version, where that was asked for, or
/// what is wrong.
fn misread(alloc: Global, error: &Error) -> Ending
    ensures { Tells error.now result }
{
    if error.kind() == ErrorKind::OutOfMemory {
        return Ending::OutOfMemory;
    }
    let Ok(text) = error.to_string(alloc) else {
        return Ending::OutOfMemory;
    };
    let Ok(text) = Text::from_string(alloc, text) else {
        return Ending::OutOfMemory;
    };
    if error.use_stderr() {
        Ending::Misused(text)
    } else {
        Ending::Helped(text)
    }
}
