ghost use Rattle.std.specs.Prelude.{◌≤◌, IfOk, IfSome};
ghost use Rattle.vp_cli.specs.Numbers.{HasNumbersInRange};

use crate::words;
use crate::words::{Misuse, VERSION};
use clap::builder::ValueParser;
use clap::error::ErrorKind;
use clap::{Arg, ArgAction, ArgMatches, Error};
use std::alloc::{AllocError, Global};
use vp_text::Text;

/// The least port on which `serve` may listen.
const LEAST_PORT: u32 = 1;

/// The greatest port on which `serve` may listen.
const MOST_PORT: u32 = 65_535;

/// The most threads that may search for races.
const MOST_WORKERS: u32 = 16;

/// The most connections after which `serve` may end.
const MOST_SESSIONS: u32 = 4_294_967_295;

/// The most orders that a script's search tries of a time slot.
const MOST_SEEDS: u32 = 16;

const ABOUT: &str =
    "Answers questions about a Verilog design, to each user what the policy lets him see.";

const BUNDLE_HELP: &str =
    "Without a command, a bundle is read from standard input: the design, a line %%, the policy, \
a line %%, and the script of request lines. Each line of the script is answered by a line.

Exit status: 0 after the script's end, 1 after a fault, which is printed as `fault CODE line N` and \
in words on standard error, 2 after bad words.";

const RUN_HELP: &str =
    "The script of request lines is read from standard input. Each line is answered by a line.

A line is a JSON object whose `op` is one of: open, close, handle, iterate, get, get_str, value, \
put, compare, free, watch, unwatch, poll, races, race, run, time, grant. docs/FORMATS.md has the \
keys of each. docs/POLICY.md#denials explains what is denied.";

const CHECK_HELP: &str =
    "Nothing is printed and the status is 0 where both are right; else the first fault is printed, \
as `run` prints it, and the status is 1.";

const VIEW_HELP: &str =
    "Each object that the user may list has a line, indented below the module in which it is \
declared: its name, its type, the width of a value or the definition of a module, and his rights. \
docs/FORMATS.md has the rest. A user who is not in the policy is fault 1604.";

const AUDIT_HELP: &str =
    "The script of request lines is read from standard input and answered as `run` answers it, but no \
reply is printed. Then all that the user's sessions were told is compared with what comes of what he \
sees at the opening and of what of the log goes to him. Printed is `same N`, N the number of his \
sessions' events in the log, and the status is 0; or `differs N`, N the number of the first of them that \
was answered otherwise, and the status is 1. A user who is not in the policy is fault 1604.

With --explain, standard error shows what the user was told and what came to him, in order: each line begins with the number of what of one entry of the log goes to him, and after a value stands the number of that with which it came. docs/FORMATS.md has the rest.";

const SERVE_HELP: &str =
    "It listens on 127.0.0.1 and prints `listening N`, N the port. Each connection is a session of its own: lines in, lines out, as \
`run` reads and answers them, but that all share one simulation, which runs beside them. With --sessions M it ends when M \
connections have ended, and without it at the operator's `shutdown`; then it prints `closed L`, L the number of entries of the log. docs/OPERATING.md tells how to run it for others.";

/// A word by its name.
fn word<'a>(alloc: Global, name: &'static str, help: &'static str, required: bool) -> Arg<'a> {
    Arg::new(alloc, name)
        .help(help)
        .required(required)
        .action(ArgAction::Set)
}

/// The file of a design.
fn design_word<'a>(alloc: Global) -> Arg<'a> {
    let help = "The file of the Verilog text, at most 1,048,576 bytes";
    word(alloc, "DESIGN", help, true)
}

/// The file of a policy.
fn policy_word<'a>(alloc: Global, required: bool) -> Arg<'a> {
    let help = "The file of the policy, in JSON, at most 1,048,576 bytes";
    word(alloc, "POLICY", help, required)
}

/// The name of a user.
fn user_word<'a>(alloc: Global) -> Arg<'a> {
    word(alloc, "USER", "The name of a user of the policy", true)
}

/// A number between two others, by a name.
fn number_word<'a>(alloc: Global, name: &'static str, least: u32, most: u32) -> Arg<'a> {
    Arg::new(alloc, name)
        .long(name)
        .value_parser(ValueParser::Unsigned(u64::from(least), u64::from(most)))
        .action(ArgAction::Set)
}

/// How many orders a script's search tries of a time slot.
fn seeds_word<'a>(alloc: Global) -> Arg<'a> {
    number_word(alloc, "seeds", 0, MOST_SEEDS)
        .default_value("16")
        .help("How many other orders are tried of each time slot, to find races; 0: none")
}

/// The words of `run`.
fn run_words<'a>(alloc: Global) -> Result<clap::Command<'a>, AllocError> {
    clap::Command::new(alloc, "run")
        .about("Runs a script over a design under a policy")
        .after_help(RUN_HELP)
        .arg(design_word(alloc))?
        .arg(policy_word(alloc, true))?
        .arg(seeds_word(alloc))
}

/// The words of `check`.
fn check_words<'a>(alloc: Global) -> Result<clap::Command<'a>, AllocError> {
    clap::Command::new(alloc, "check")
        .about("Reads a design, and a policy if it is named, and prints the first fault")
        .after_help(CHECK_HELP)
        .arg(design_word(alloc))?
        .arg(policy_word(alloc, false))
}

/// The words of `view`.
fn view_words<'a>(alloc: Global) -> Result<clap::Command<'a>, AllocError> {
    clap::Command::new(alloc, "view")
        .about("Prints what a user may see of a design under a policy")
        .after_help(VIEW_HELP)
        .arg(design_word(alloc))?
        .arg(policy_word(alloc, true))?
        .arg(user_word(alloc))
}

/// Whether an audit is explained.
fn explain_word<'a>(alloc: Global) -> Arg<'a> {
    Arg::new(alloc, "explain")
        .long("explain")
        .help("Show what the user was told and what came to him on standard error")
        .action(ArgAction::SetTrue)
}

/// The words of `audit`.
fn audit_words<'a>(alloc: Global) -> Result<clap::Command<'a>, AllocError> {
    clap::Command::new(alloc, "audit")
        .about("Runs a script, and compares what a user was told with what he may know")
        .after_help(AUDIT_HELP)
        .arg(design_word(alloc))?
        .arg(policy_word(alloc, true))?
        .arg(user_word(alloc))?
        .arg(seeds_word(alloc))?
        .arg(explain_word(alloc))
}

/// Whether a server keeps its log.
fn keep_word<'a>(alloc: Global) -> Arg<'a> {
    Arg::new(alloc, "keep")
        .long("keep")
        .help(
            "Keep the log, of 4,194,304 entries at most: once it is full nothing happens any more",
        )
        .action(ArgAction::SetTrue)
}

/// Whether a server reports what happens.
fn log_word<'a>(alloc: Global) -> Arg<'a> {
    Arg::new(alloc, "log")
        .long("log")
        .help("Report openings, closings, wrong tokens and the operator's orders on standard error")
        .action(ArgAction::SetTrue)
}

/// The words of `serve`.
fn serve_words<'a>(alloc: Global) -> Result<clap::Command<'a>, AllocError> {
    clap::Command::new(alloc, "serve")
        .about("Serves a design under a policy to whoever connects")
        .after_help(SERVE_HELP)
        .arg(design_word(alloc))?
        .arg(policy_word(alloc, true))?
        .arg(
            number_word(alloc, "port", LEAST_PORT, MOST_PORT)
                .required(true)
                .help("The port of 127.0.0.1 on which it listens"),
        )?
        .arg(
            number_word(alloc, "workers", 0, MOST_WORKERS)
                .default_value("2")
                .help("How many threads search for races"),
        )?
        .arg(
            number_word(alloc, "sessions", 0, MOST_SESSIONS)
                .default_value("0")
                .help("After how many connections it ends; 0: it does not end"),
        )?
        .arg(keep_word(alloc))?
        .arg(log_word(alloc))
}

/// The program's words.
fn grammar<'a>(alloc: Global) -> Result<clap::Command<'a>, AllocError> {
    clap::Command::new(alloc, "vp_served")
        .version(VERSION)
        .about(ABOUT)
        .after_help(BUNDLE_HELP)
        .subcommand(run_words(alloc)?)?
        .subcommand(check_words(alloc)?)?
        .subcommand(view_words(alloc)?)?
        .subcommand(audit_words(alloc)?)?
        .subcommand(serve_words(alloc)?)
}

/// What the program's words ask, of which the first is the program's name; or what is wrong with them
/// (1608), or out of memory (1607).
pub fn command<'a>(alloc: Global, words: &'a [String]) -> Result<words::Command<'a>, Misuse>
    ensures numbers { IfOk result (λ c. HasNumbersInRange c) }
{
    let Ok(grammar) = grammar(alloc) else {
        return Err(Misuse::NoMemory);
    };
    match grammar.try_get_matches_from(words) {
        Ok(matches) => match asked(&matches) {
            Some(command) => Ok(command),
            None => Err(out_of_range(alloc)),
        },
        Err(error) => unmatched(alloc, &error),
    }
}

/// A number by its name, if it is between two others.
fn number(matches: &ArgMatches, name: &str, least: u32, most: u32) -> Option<u32>
    ensures { IfSome result (λ n. (least ≤ n) × (n ≤ most)) }
{
    match matches.get_one(name) {
        Some(number) if least <= number && number <= most => Some(number),
        _ => None,
    }
}

/// What the words of `serve` ask, if each number is in its range.
fn served<'a>(serve: &ArgMatches<'a>) -> Option<words::Command<'a>>
    ensures { IfSome result (λ c. HasNumbersInRange c) }
{
    let port = number(serve, "port", LEAST_PORT, MOST_PORT)?;
    let workers = number(serve, "workers", 0, MOST_WORKERS)?;
    let sessions = number(serve, "sessions", 0, MOST_SESSIONS)?;
    Some(words::Command::Serve {
        design: serve.get_str("DESIGN").unwrap_or(""),
        policy: serve.get_str("POLICY").unwrap_or(""),
        port: port as u16,
        workers,
        sessions,
        keep: serve.get_flag("keep"),
        log: serve.get_flag("log"),
    })
}

/// That a number is out of its range, which the grammar has refused before; or out of memory.
fn out_of_range(alloc: Global) -> Misuse {
    match Text::copy(alloc, "error: a number is out of its range\n") {
        Ok(text) => Misuse::BadWords(text),
        Err(_) => Misuse::NoMemory,
    }
}

/// What words ask that fit the grammar, if each number is in its range.
fn asked<'a>(matches: &ArgMatches<'a>) -> Option<words::Command<'a>>
    ensures { IfSome result (λ c. HasNumbersInRange c) }
{
    if let Some(run) = matches.subcommand_matches("run") {
        return Some(words::Command::Run {
            design: run.get_str("DESIGN").unwrap_or(""),
            policy: run.get_str("POLICY").unwrap_or(""),
            seeds: number(run, "seeds", 0, MOST_SEEDS)?,
        });
    }
    if let Some(check) = matches.subcommand_matches("check") {
        return Some(words::Command::Check {
            design: check.get_str("DESIGN").unwrap_or(""),
            policy: check.get_str("POLICY"),
        });
    }
    if let Some(audit) = matches.subcommand_matches("audit") {
        return Some(words::Command::Audit {
            design: audit.get_str("DESIGN").unwrap_or(""),
            policy: audit.get_str("POLICY").unwrap_or(""),
            user: audit.get_str("USER").unwrap_or(""),
            seeds: number(audit, "seeds", 0, MOST_SEEDS)?,
            explain: audit.get_flag("explain"),
        });
    }
    if let Some(serve) = matches.subcommand_matches("serve") {
        return served(serve);
    }
    match matches.subcommand_matches("view") {
        Some(view) => Some(words::Command::View {
            design: view.get_str("DESIGN").unwrap_or(""),
            policy: view.get_str("POLICY").unwrap_or(""),
            user: view.get_str("USER").unwrap_or(""),
        }),
        None => Some(words::Command::Bundle),
    }
}

/// What words ask that do not fit the grammar: help, the version, or nothing that the program does.
fn unmatched<'a>(alloc: Global, error: &Error) -> Result<words::Command<'a>, Misuse>
    ensures { IfOk result (λ c. HasNumbersInRange c) }
{
    if error.kind() == ErrorKind::OutOfMemory {
        return Err(Misuse::NoMemory);
    }
    let Ok(text) = format!(in alloc; "{error}") else {
        return Err(Misuse::NoMemory);
    };
    let text = Text::from_string(text);
    if error.use_stderr() {
        Err(Misuse::BadWords(text))
    } else {
        Ok(words::Command::Show(text))
    }
}
