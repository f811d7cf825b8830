//! The words of the command line.

ghost use Rattle.std.specs.Prelude.{◌≡◌, ◌≤◌, ◌∷◌, [], ℕ, false, map, string_bytes, codes, IfOk, IfSome, MatchOption, Some, None, option_map};
ghost use Rattle.clap.specs.Matches.{found_of};
ghost use Rattle.clap.specs.Simple.{app_of, subcommand_rows_of};
ghost use Rattle.clap.specs.Walk.{first_of, one_of, rows_of, rule_of};
ghost use Rattle.clap.specs.declared.builder.command.Command.TheViews.{out-Command};
ghost use Rattle.cas_world.specs.Openings.Opening.{members_to};
ghost use Rattle.casreg_command.specs.Words.{option_of, over_cluster, script, race, load, audit, running, casreg, command_line, faults_of, number_in, marks_word};
ghost use Rattle.casreg_command.specs.Words.{IsNumberIn, HasOptions, HasMarks, SaysNeither, HasDrawing, HasCommand, AsksFor, AreWords, AreOptionsInRange, IsLoadInRange, IsInRange};
ghost use Rattle.casreg_command.specs.declared.words.Request.{Request as ARequest};

use cas_reopen::first_members;
use casreg_script::Load;
use clap::builder::ValueParser;
use clap::error::ErrorKind;
use clap::{Arg, ArgAction, ArgMatches, Command, value_parser};
use std::alloc::{AllocError, Global};

/// How large a cluster is, and how often its callers try.
#[derive(Clone, Copy, Debug, PartialEq, Eq)]
pub struct Options {
    /// How many acceptors are members at first, from 1 to 9.
    pub acceptors: u8,
    /// How many proposers of clients there are, from 1 to 16.
    pub proposers: u8,
    /// How often a call is tried, from 1 to 64.
    pub tries: u8,
    /// Whether the record is written behind all other output.
    pub marks: bool,
}

/// Which load is run, and what is written behind it.
#[derive(Clone, Copy, Debug, PartialEq, Eq)]
pub struct LoadOptions {
    /// The load: of up to 100,000 lines, whose changes are tried up to 64 times.
    pub load: Load,
    /// Whether the record is written behind the summary.
    pub marks: bool,
}

/// What the words ask for.
#[derive(Clone, Copy, Debug, PartialEq, Eq)]
pub enum Request {
    /// `script`: to run the lines of the input, one after another.
    Script(Options),
    /// `race`: to run the lines of the input, each caller's in a thread of its own.
    Race(Options),
    /// `load`: to run lines that are drawn.
    Load(LoadOptions),
    /// `audit`: to audit the record that the input spells.
    Audit,
}

/// What the words ask for: the command `script`, `race`, `load` or `audit`. Each option may stand once, in any order. The first three have
/// `--acceptors` (1 to 9, or 3 if it is not given), `--proposers` (1 to 16, or 1), `--tries` (1 to 64, or 1) and `--marks` (`yes` or `no`,
/// or `no`). `load` has `--seed` (any `u64`, or 1) and `--lines` (up to 100,000, or 1,000), too. `None` comes exactly if the words are none
/// of a command; a request for help is none. Only memory can fail.
pub fn read_words(alloc: Global, words: &[String]) -> Result<Option<Request>, AllocError>
    ensures words { IfOk result (λ request. MatchOption request
        ((other : ARequest) → AreWords (map string_bytes words.now) other → ⊥)
        (AreWords (map string_bytes words.now))) }
    ensures range { IfOk result (λ request. IfSome request IsInRange) }
    // There are no two readings of the words.
    ensures only { IfOk result (λ request. (other : ARequest)
        → AreWords (map string_bytes words.now) other → request ≡ Some other) }
{
    let line = with_name(alloc, words)?;
    let command = casreg(alloc)?;
    match command.try_get_matches_from(&line) {
        Ok(matches) => Ok(request_of(&matches)),
        Err(error) if error.kind() == ErrorKind::OutOfMemory => Err(AllocError),
        Err(_error) => Ok(None),
    }
}

/// What the subcommand asks for that a parse met: nothing, where `--marks` says neither yes nor no.
fn request_of(matches: &ArgMatches<'_>) -> Option<Request>
    requires { HasCommand (subcommand_rows_of matches.now) }
    ensures asks { IfSome result (AsksFor (subcommand_rows_of matches.now)) }
    ensures none { result ≡ None
        → (other : ARequest) → AsksFor (subcommand_rows_of matches.now) other → ⊥ }
    ensures range { IfSome result IsInRange }
{
    let (name, given) = matches.subcommand().unwrap();
    if name == "audit" {
        Some(Request::Audit)
    } else if name == "load" {
        Some(Request::Load(load_of(given)?))
    } else if name == "race" {
        Some(Request::Race(options_of(given)?))
    } else {
        Some(Request::Script(options_of(given)?))
    }
}

/// The options of `script` or `race`: nothing, where `--marks` says neither yes nor no.
fn options_of(given: &ArgMatches<'_>) -> Option<Options>
    requires options { HasOptions (rows_of (found_of given.now)) }
    requires marks { HasMarks (rows_of (found_of given.now)) }
    ensures acceptors { IfSome result (λ options. option_map number_in
        (one_of (codes "acceptors") (rows_of (found_of given.now))) ≡ Some options.acceptors) }
    ensures proposers { IfSome result (λ options. option_map number_in
        (one_of (codes "proposers") (rows_of (found_of given.now))) ≡ Some options.proposers) }
    ensures tries { IfSome result (λ options. option_map number_in
        (one_of (codes "tries") (rows_of (found_of given.now))) ≡ Some options.tries) }
    ensures marks { MatchOption result (SaysNeither (rows_of (found_of given.now)))
        (λ options. first_of (codes "marks") (rows_of (found_of given.now))
        ≡ Some (marks_word options.marks)) }
    ensures range { IfSome result AreOptionsInRange }
{
    let marks = marks_of(given)?;
    Some(Options {
        acceptors: number_of(given, "acceptors", 9),
        proposers: number_of(given, "proposers", 16),
        tries: number_of(given, "tries", 64),
        marks,
    })
}

/// Whether `--marks` says yes: nothing, where it says neither that nor no.
fn marks_of(given: &ArgMatches<'_>) -> Option<bool>
    requires { HasMarks (rows_of (found_of given.now)) }
    ensures { MatchOption result (SaysNeither (rows_of (found_of given.now)))
        (λ marks. first_of (codes "marks") (rows_of (found_of given.now))
        ≡ Some (marks_word marks)) }
{
    let text = given.get_str("marks").unwrap();
    if text == "yes" {
        Some(true)
    } else if text == "no" {
        Some(false)
    } else {
        None
    }
}

/// The options of `load`: nothing if `--marks` says neither yes nor no.
fn load_of(given: &ArgMatches<'_>) -> Option<LoadOptions>
    requires options { HasOptions (rows_of (found_of given.now)) }
    requires marks { HasMarks (rows_of (found_of given.now)) }
    requires drawing { HasDrawing (rows_of (found_of given.now)) }
    ensures members { IfSome result (λ options. option_map members_to (option_map number_in
        (one_of (codes "acceptors") (rows_of (found_of given.now))))
        ≡ Some options.load.members) }
    ensures proposers { IfSome result (λ options. option_map number_in
        (one_of (codes "proposers") (rows_of (found_of given.now)))
        ≡ Some options.load.proposers) }
    ensures tries { IfSome result (λ options. option_map number_in
        (one_of (codes "tries") (rows_of (found_of given.now))) ≡ Some options.load.tries) }
    ensures seed { IfSome result (λ options. option_map number_in
        (one_of (codes "seed") (rows_of (found_of given.now))) ≡ Some options.load.seed) }
    ensures lines { IfSome result (λ options. option_map number_in
        (one_of (codes "lines") (rows_of (found_of given.now))) ≡ Some options.load.lines) }
    ensures marks { MatchOption result (SaysNeither (rows_of (found_of given.now)))
        (λ options. first_of (codes "marks") (rows_of (found_of given.now))
        ≡ Some (marks_word options.marks)) }
    ensures range { IfSome result (λ options. IsLoadInRange options.load) }
{
    let marks = marks_of(given)?;
    Some(LoadOptions {
        load: Load {
            members: first_members(number_of(given, "acceptors", 9)),
            proposers: number_of(given, "proposers", 16),
            tries: number_of(given, "tries", 64),
            seed: seed_of(given),
            lines: lines_of(given),
        },
        marks,
    })
}

/// The seed that a load has.
fn seed_of(given: &ArgMatches<'_>) -> u64
    requires { IsNumberIn 0 18446744073709551615
        (one_of (codes "seed") (rows_of (found_of given.now))) }
    ensures { option_map number_in (one_of (codes "seed") (rows_of (found_of given.now)))
        ≡ Some result }
{
    given.get_one("seed").unwrap()
}

/// How many lines a load has.
fn lines_of(given: &ArgMatches<'_>) -> u32
    requires { IsNumberIn 0 100000 (one_of (codes "lines") (rows_of (found_of given.now))) }
    ensures number { option_map number_in (one_of (codes "lines") (rows_of (found_of given.now)))
        ≡ Some result }
    ensures few { result ≤ 100000 }
{
    given.get_one("lines").unwrap()
}

/// The number that an option has, which is from 1 to this one.
fn number_of(given: &ArgMatches<'_>, name: &str, most: u8) -> u8
    requires { IsNumberIn 1 most (one_of name.now (rows_of (found_of given.now))) }
    ensures number { option_map number_in (one_of name.now (rows_of (found_of given.now)))
        ≡ Some result }
    ensures some { 1 ≤ result }
    ensures few { result ≤ most }
{
    given.get_one(name).unwrap()
}

/// The words behind the name of the program.
fn with_name<'a>(alloc: Global, words: &'a [String]) -> Result<Vec<&'a str>, AllocError>
    ensures { IfOk result
        (λ all. map (λ word. word.now) all.items ≡ command_line (map string_bytes words.now)) }
{
    let mut all = Vec::new(alloc);
    all.push("casreg")?;
    for word in words {
        all.push(word.as_str())?;
    }
    Ok(all)
}

/// The program, of which one subcommand is required.
fn casreg<'a>(alloc: Global) -> Result<Command<'a>, AllocError>
    ensures { IfOk result (λ command. app_of command ≡ casreg) }
{
    running(alloc)?.subcommand(audit(alloc))
}

/// The program with the subcommands that run something over a cluster.
fn running<'a>(alloc: Global) -> Result<Command<'a>, AllocError>
    ensures { IfOk result (λ command. app_of command ≡ running) }
{
    let bare = Command::new(alloc, "casreg").subcommand_required(true);
    bare.subcommand(script(alloc)?)?
        .subcommand(race(alloc)?)?
        .subcommand(load(alloc)?)
}

/// The subcommand `script`.
fn script<'a>(alloc: Global) -> Result<Command<'a>, AllocError>
    ensures app { IfOk result (λ command. app_of command ≡ script) }
    ensures local { IfOk result (λ command. (out-Command command).has_globals ≡ false) }
{
    over_cluster(alloc, "script")
}

/// The subcommand `race`.
fn race<'a>(alloc: Global) -> Result<Command<'a>, AllocError>
    ensures app { IfOk result (λ command. app_of command ≡ race) }
    ensures local { IfOk result (λ command. (out-Command command).has_globals ≡ false) }
{
    over_cluster(alloc, "race")
}

/// The subcommand `load`.
fn load<'a>(alloc: Global) -> Result<Command<'a>, AllocError>
    ensures app { IfOk result (λ command. app_of command ≡ load) }
    ensures local { IfOk result (λ command. (out-Command command).has_globals ≡ false) }
{
    let seed = option_of(alloc, "seed", value_parser!(u64), "1");
    let lines = option_of(
        alloc,
        "lines",
        value_parser!(u64).range(0..=100_000),
        "1000",
    );
    over_cluster(alloc, "load")?.arg(seed)?.arg(lines)
}

/// The subcommand `audit`.
fn audit<'a>(alloc: Global) -> Command<'a>
    ensures app { app_of result ≡ audit }
    ensures local { (out-Command result).has_globals ≡ false }
{
    Command::new(alloc, "audit")
}

/// A subcommand of this name, with the options of a cluster and `--marks`.
fn over_cluster<'a>(alloc: Global, name: &'a str) -> Result<Command<'a>, AllocError>
    ensures app { IfOk result (λ command. app_of command ≡ over_cluster name.now) }
    ensures local { IfOk result (λ command. (out-Command command).has_globals ≡ false) }
{
    let acceptors = option_of(alloc, "acceptors", value_parser!(u64).range(1..=9), "3");
    let proposers = option_of(alloc, "proposers", value_parser!(u64).range(1..=16), "1");
    let tries = option_of(alloc, "tries", value_parser!(u64).range(1..=64), "1");
    let marks = option_of(alloc, "marks", ValueParser::String, "no");
    Command::new(alloc, name)
        .arg(acceptors)?
        .arg(proposers)?
        .arg(tries)?
        .arg(marks)
}

/// An option whose value is read so, and which has this value where it is not given.
fn option_of<'a>(
    alloc: Global,
    name: &'a str,
    parser: ValueParser<'a>,
    fallback: &'a str,
) -> Arg<'a>
    ensures rule { rule_of result ≡ option_of name.now parser.entry fallback.now }
    ensures local { result.global ≡ false }
{
    Arg::new(alloc, name)
        .long(name)
        .action(ArgAction::Set)
        .value_parser(parser)
        .default_value(fallback)
}
