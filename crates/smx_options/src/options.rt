//! The command line.
use clap::{Arg, ArgAction, Command, Error};
use std::alloc::{AllocError, Global};

/// The version of the program.
pub const VERSION: &str = "0.2.0";

/// What smx is.
const ABOUT: &str = "Lets many SMPP 3.4 clients (ESMEs) share a few binds to a message centre";

/// One command line of each command.
const EXAMPLES: &str = "Examples:
  smx check /etc/smx/smx.toml
  smx serve /etc/smx/smx.toml
  smx demo examples/smx.toml
  smx relay examples/first-path.relay";

const STDIN: &str = "stdin";

const VERBOSE: &str = "verbose";

const KEYS: &str = "keys";

const NOTIFY: &str = "notify";

const LOG: &str = "log";

const STRICT: &str = "strict";

/// How the lines of the log are written.
#[derive(Clone, Copy, Debug, PartialEq, Eq)]
pub enum LogForm {
    Text,
    Json,
    Journal,
}

impl LogForm {
    // Which one a word of the command line names.
    fn named(word: &str) -> Option<LogForm> {
        match word {
            "text" => Some(LogForm::Text),
            "json" => Some(LogForm::Json),
            "journal" => Some(LogForm::Journal),
            _ => None,
        }
    }
}

/// How the proxy is run.
#[derive(Clone, Copy, Debug, PartialEq, Eq)]
pub struct Serving {
    /// Standard input is read also where it is a terminal, and not only where it is none.
    pub reads_terminal: bool,
    /// Standard output has lines for a service manager.
    pub notifies: bool,
    /// How the lines of the log are written. None: as the configuration says.
    pub log: Option<LogForm>,
}

/// What the command line asks for.
#[derive(Clone, Copy, Debug, PartialEq, Eq)]
pub enum Asked<'a> {
    /// Runs the script in the file with this path, or from standard input.
    Relay(Option<&'a str>),
    /// Checks the configuration in the file with this path. True: what is advised is a fault, too.
    Check(&'a str, bool),
    /// Says which keys a configuration may have.
    Keys,
    /// Runs the proxy by the configuration in the file with this path.
    Serve(&'a str, Serving),
    /// Shows the proxy at work by the configuration in the file with this path, with its lines or
    /// without them.
    Demo(&'a str, bool),
    /// Nothing, which a command line that was read doesn't ask for.
    Nothing,
}

// A command over a configuration.
fn over_file<'a>(
    alloc: Global,
    name: &'a str,
    about: &'a str,
    example: &'a str,
) -> Result<Command<'a>, AllocError> {
    let file = Arg::new(alloc, "FILE")
        .required(true)
        .action(ArgAction::Set)
        .help("The path of a configuration");
    Command::new(alloc, name)
        .about(about)
        .after_help(example)
        .arg(file)
}

// A word that is there or not.
fn flag<'a>(alloc: Global, name: &'a str, help: &'a str) -> Arg<'a> {
    Arg::new(alloc, name)
        .long(name)
        .action(ArgAction::SetTrue)
        .help(help)
}

// The form of the log's lines.
fn log<'a>(alloc: Global) -> Arg<'a> {
    Arg::new(alloc, LOG)
        .long(LOG)
        .action(ArgAction::Set)
        .value_name("FORM")
        .value_parser(["text", "json", "journal"].as_slice())
        .help("How each line on standard error is written, in place of what FILE says")
}

// The command of scripts.
fn relay<'a>(alloc: Global) -> Result<Command<'a>, AllocError> {
    let file = Arg::new(alloc, "FILE").action(ArgAction::Set).help(
        "The path of a script; without it standard input is read to its end",
    );
    Command::new(alloc, "relay")
        .about("Runs a script, octets in, octets out, without a socket")
        .after_help("Example: smx relay examples/first-path.relay")
        .arg(file)
}

// All that may be written.
fn command<'a>(alloc: Global) -> Result<Command<'a>, AllocError> {
    let serve = over_file(
        alloc,
        "serve",
        "Runs the proxy, until a line stop comes on standard input",
        "Example: smx serve /etc/smx/smx.toml",
    )?
    .arg(flag(
        alloc,
        STDIN,
        "Read standard input also where it is a terminal",
    ))?
    .arg(flag(
        alloc,
        NOTIFY,
        "Write lines for a service manager, as of sd_notify(3), on standard output",
    ))?
    .arg(log(alloc))?;
    let demo = over_file(
        alloc,
        "demo",
        "Shows a proxy at work over loopback; opens none of FILE's addresses",
        "Example: smx demo examples/smx.toml",
    )?
    .arg(flag(alloc, VERBOSE, "Write the proxy's lines on standard error"))?;
    let check = over_file(
        alloc,
        "check",
        "Checks a configuration, and says what would be right",
        "Example: smx check /etc/smx/smx.toml",
    )?
    .arg(flag(
        alloc,
        STRICT,
        "Take a key that isn't read, and whatever is advised, for a fault, too",
    ))?
    .arg(flag(
        alloc,
        KEYS,
        "Say which keys a configuration may have, and read no file",
    )
    .exclusive(true))?;
    Command::new(alloc, "smx")
        .about(ABOUT)
        .version(VERSION)
        .after_help(EXAMPLES)
        .subcommand_required(true)
        .subcommand(serve)?
        .subcommand(demo)?
        .subcommand(relay(alloc)?)?
        .subcommand(check)
}

/// Reads the words of a command line, the program's name first.
pub(crate) fn read<'a>(alloc: Global, words: &'a [String]) -> Result<Asked<'a>, Error> {
    let matches = command(alloc)?.try_get_matches_from(words)?;
    let Some((name, found)) = matches.subcommand() else {
        return Ok(Asked::Nothing);
    };
    if name == "check" && found.get_flag(KEYS) {
        return Ok(Asked::Keys);
    }
    let path = found.get_str("FILE");
    if name == "relay" {
        return Ok(Asked::Relay(path));
    }
    let Some(path) = path else {
        return Ok(Asked::Nothing);
    };
    Ok(match name {
        "check" => Asked::Check(path, found.get_flag(STRICT)),
        "serve" => Asked::Serve(
            path,
            Serving {
                reads_terminal: found.get_flag(STDIN),
                notifies: found.get_flag(NOTIFY),
                log: match found.get_str(LOG) {
                    Some(word) => LogForm::named(word),
                    None => None,
                },
            },
        ),
        "demo" => Asked::Demo(path, found.get_flag(VERBOSE)),
        _ => Asked::Nothing,
    })
}
