//! The program's arguments.

ghost use Rattle.std.specs.Prelude.{◌≡◌, ℕ, List, [], ◌∷◌, None, IfOk, IfErr, IfSome, map, codes, false, true};
ghost use Rattle.clap.specs.Values.{kind_of};
ghost use Rattle.clap.specs.Words.{app_of, found_of, rows_of, subcommand_rows_of, with_rule};
ghost use Rattle.clap.specs.declared.builder.command.Command.TheViews.{out-Command};
ghost use Rattle.nr_rev.specs.Refusing.{refused_memory};
ghost use Rattle.nr_programs.specs.Sharing.{is_in_range};
ghost use Rattle.nr_arguments.specs.Arguments.{Ask, Asks, IsNamed, IsPlain, IsArgumentsFault, fault_of_kind, file_of, file_program, netrev, number_in, option_rule, serve_program, sharing_in};
ghost use Rattle.nr_arguments.specs.Arguments.{IsInRange};
ghost use Rattle.nr_arguments.specs.declared.arguments.ArgumentsFault.TheVariants as faults;

use clap::error::ErrorKind;
use clap::{Arg, ArgMatches, Command, Error};
use nr_command::{from_one, number};
use nr_programs::Sharing;
use nr_rev::Memory;
use std::alloc::{AllocError, Global};

/// The usage text.
pub const USAGE: &str =
    "usage: netrev run FILE\n       netrev check FILE\n       netrev upgrade FILE\n       netrev changes FILE\n       netrev suspects FILE\n       netrev serve FILE --port P [--fronts N] [--workers W] [--journal H] [--connections C]\n";

/// The default number of words in a session's journal.
pub const USUAL_JOURNAL: u32 = 4_096;

/// The selected program, and its file.
#[derive(Clone, Copy, Debug, PartialEq, Eq)]
pub enum Program<'a> {
    /// Reads commands from standard input and writes replies to standard output.
    Run { file: &'a str },
    /// Checks whether the recording can be replayed.
    Check { file: &'a str },
    /// Writes the recording in version 2, each step with its answer, to standard output.
    Upgrade { file: &'a str },
    /// Writes the cells that each step changed, with their values, to standard output.
    Changes { file: &'a str },
    /// Writes the suspects to standard output: what happened to deadlines, lost wake-ups, sleepers,
    /// and held references to closed sockets.
    Suspects { file: &'a str },
    /// Answers the commands of several callers on the loopback interface. The callers share one session.
    Serve { file: &'a str, sharing: Sharing },
}

impl<'a> Program<'a> {
    /// Returns the program's file.
    pub fn file(&self) -> &'a str
        ensures { result.now ≡ file_of self.now }
    {
        match self {
            Program::Run { file }
            | Program::Check { file }
            | Program::Upgrade { file }
            | Program::Changes { file }
            | Program::Suspects { file }
            | Program::Serve { file, .. } => file,
        }
    }
}

/// Why the arguments are refused.
#[derive(Clone, Copy, Debug, PartialEq, Eq)]
pub enum ArgumentsFault {
    /// Usage error: the arguments select no program.
    Usage,
    /// Memory ran out.
    Memory(Memory),
}

impl From<AllocError> for ArgumentsFault {
    ghost from_gives = { λ _ fault. fault ≡ faults.Memory refused_memory };

    fn from(refused: AllocError) -> ArgumentsFault {
        ArgumentsFault::Memory(refused.into())
    }
}

impl From<Error> for ArgumentsFault {
    ghost from_gives = { λ error fault. fault ≡ fault_of_kind (kind_of error) };

    fn from(error: Error) -> ArgumentsFault {
        match error.kind() {
            ErrorKind::OutOfMemory => ArgumentsFault::Memory(AllocError.into()),
            _ => ArgumentsFault::Usage,
        }
    }
}

// Returns the subcommand with this name, and its argument FILE.
fn file_command<'a>(alloc: Global, name: &'a str) -> Result<Command<'a>, AllocError>
    ensures app { IfOk result (λ command. app_of command ≡ file_program name.entry.now) }
    ensures local { IfOk result (λ command. (out-Command command).has_globals ≡ false) }
{
    let file = Arg::new(alloc, "file").required(true);
    Command::new(alloc, name).arg(file)
}

// Returns the subcommand with another optional argument.
fn with_option<'a>(
    alloc: Global,
    program: Command<'a>,
    name: &'a str,
) -> Result<Command<'a>, AllocError>
    requires { (out-Command program).has_globals ≡ false }
    ensures app { IfOk result (λ command. app_of command
        ≡ with_rule (app_of program.entry) (option_rule name.entry.now)) }
    ensures local { IfOk result (λ command. (out-Command command).has_globals ≡ false) }
{
    program.arg(Arg::new(alloc, name).long(name))
}

// Returns the subcommand `serve`, with its argument FILE and its options.
fn serve_command<'a>(alloc: Global) -> Result<Command<'a>, AllocError>
    ensures app { IfOk result (λ command. app_of command ≡ serve_program) }
    ensures local { IfOk result (λ command. (out-Command command).has_globals ≡ false) }
{
    let command = file_command(alloc, "serve")?;
    let command = with_option(alloc, command, "port")?;
    let command = with_option(alloc, command, "fronts")?;
    let command = with_option(alloc, command, "workers")?;
    let command = with_option(alloc, command, "journal")?;
    with_option(alloc, command, "connections")
}

// Returns the command line of netrev.
fn command<'a>(alloc: Global) -> Result<Command<'a>, AllocError>
    ensures { IfOk result (λ command. app_of command ≡ netrev) }
{
    let run = file_command(alloc, "run")?;
    let check = file_command(alloc, "check")?;
    let upgrade = file_command(alloc, "upgrade")?;
    let changes = file_command(alloc, "changes")?;
    let suspects = file_command(alloc, "suspects")?;
    let serve = serve_command(alloc)?;
    Command::new(alloc, "netrev")
        .disable_help_flag(true)
        .disable_help_subcommand(true)
        .subcommand_required(true)
        .subcommand(run)?
        .subcommand(check)?
        .subcommand(upgrade)?
        .subcommand(changes)?
        .subcommand(suspects)?
        .subcommand(serve)
}

// Returns an option's number, or the default if the option isn't given.
fn number_in(matches: &ArgMatches<'_>, name: &str, usual: Option<u32>) -> Option<u32>
    ensures { result ≡ number_in name.now usual (rows_of (found_of matches.now)) }
{
    match matches.get_str(name) {
        Some(text) => number(text.as_bytes()).ok(),
        None => usual,
    }
}

// Returns the parameters that the options specify, if they are in range.
fn sharing_in(matches: &ArgMatches<'_>) -> Option<Sharing>
    ensures asked { result ≡ sharing_in (rows_of (found_of matches.now)) }
    ensures range { IfSome result (λ sharing. is_in_range sharing ≡ true) }
{
    let sharing = Sharing {
        port: number_in(matches, "port", None)?,
        fronts: number_in(matches, "fronts", Some(1))?,
        workers: number_in(matches, "workers", Some(1))?,
        journal: number_in(matches, "journal", Some(USUAL_JOURNAL))?,
        connections: from_one(number_in(matches, "connections", Some(0))?),
    };
    if sharing.is_in_range() {
        Some(sharing)
    } else {
        None
    }
}

// Returns the program that the matches select, with its file.
fn matched_program<'a>(matches: &ArgMatches<'a>) -> Option<Program<'a>>
    ensures named { IsNamed (subcommand_rows_of matches.now) result }
    ensures range { IfSome result IsInRange }
{
    let Some((name, inner)) = matches.subcommand() else {
        return None;
    };
    let Some(file) = inner.get_str("file") else {
        return None;
    };
    match name {
        "run" => Some(Program::Run { file }),
        "check" => Some(Program::Check { file }),
        "upgrade" => Some(Program::Upgrade { file }),
        "changes" => Some(Program::Changes { file }),
        "suspects" => Some(Program::Suspects { file }),
        "serve" => match sharing_in(inner) {
            Some(sharing) => Some(Program::Serve { file, sharing }),
            None => None,
        },
        _ => None,
    }
}

/// Reads the program's arguments, which start with its own name, and returns the program that they
/// select. Fails with `Usage` if they select no program, and with `Memory` if memory runs out.
pub fn read_words<'a>(
    alloc: Global,
    arguments: &'a [&'a str],
) -> Result<Program<'a>, ArgumentsFault>
    ensures ok { IfOk result (Asks (map (λ argument. argument.now) arguments.entry.now)) }
    ensures range { IfOk result IsInRange }
    ensures err { IfErr result
        (IsArgumentsFault (map (λ argument. argument.now) arguments.entry.now)) }
{
    let command = command(alloc)?;
    let matches = command.try_get_matches_from(arguments)?;
    match matched_program(&matches) {
        Some(program) => Ok(program),
        None => Err(ArgumentsFault::Usage),
    }
}

/// The name of a subcommand and a file name that doesn't begin with a hyphen select the
/// subcommand's program.
pub fn plain_arguments_ask()
    ensures run { (program file : List ℕ) → IsPlain file
        → Ask (program ∷ codes "run" ∷ file ∷ []) (codes "run", file, None) }
    ensures check { (program file : List ℕ) → IsPlain file
        → Ask (program ∷ codes "check" ∷ file ∷ []) (codes "check", file, None) }
    ensures upgrade { (program file : List ℕ) → IsPlain file
        → Ask (program ∷ codes "upgrade" ∷ file ∷ []) (codes "upgrade", file, None) }
    ensures changes { (program file : List ℕ) → IsPlain file
        → Ask (program ∷ codes "changes" ∷ file ∷ []) (codes "changes", file, None) }
    ensures suspects { (program file : List ℕ) → IsPlain file
        → Ask (program ∷ codes "suspects" ∷ file ∷ []) (codes "suspects", file, None) }
{}
