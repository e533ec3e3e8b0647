//! The command line.
ghost use Rattle.std.specs.Prelude.{◌≡◌, ◌≢◌, ◌⊎◌, map, codes, All, Any, Err};
ghost use Rattle.zp_flags.specs.Words.{flags_of, flags_together};

use clap::error::ErrorKind;
use clap::{Arg, ArgAction, Command};
use std::alloc::{AllocError, Global};
use std::convert::AsStr;
use std::error::Error;
use std::fmt;
use std::fmt::{Display, Formatter};

/// What was asked for.
#[derive(Clone, Copy, PartialEq, Eq, Debug, Drop)]
pub struct Flags {
    /// One thread, the commands in the trace's order.
    pub serial: bool,
    /// The journals' text after the output.
    pub journal: bool,
}

/// Why the words are no flags.
#[derive(Clone, Copy, PartialEq, Eq, Debug, Drop)]
pub enum FlagFault {
    /// A word is no flag.
    Unknown,
    /// `--journal` stands with `--serial`.
    NeedsThreads,
    /// There is no memory.
    Memory,
}

impl Display for FlagFault {
    ghost use Rattle.std.specs.Prelude.{Some};
    ghost use Rattle.zp_flags.specs.Faults.{flag_message};

    ghost output = { λ fault. Some (flag_message fault) };

    fn fmt<W: fmt::Write>(&self, f: &mut Formatter<W>) -> fmt::Result {
        f.write_str(match self {
            FlagFault::Unknown => "zonereplay: unknown argument",
            FlagFault::NeedsThreads => "zonereplay: --journal needs threads",
            FlagFault::Memory => "zonereplay: no memory",
        })
    }
}

impl Error for FlagFault {}

impl From<AllocError> for FlagFault {
    ghost use Rattle.zp_flags.specs.declared.flags.FlagFault.TheVariants.{Memory};

    ghost from_gives = { λ _ e. e ≡ Memory };

    fn from(_e: AllocError) -> FlagFault {
        FlagFault::Memory
    }
}

/// The flags that the words after the program's name set. Each may stand more than once.
pub fn read_flags<S: AsStr>(alloc: Global, words: &[S]) -> Result<Flags, FlagFault>
    ensures dashes { Any (λ w. S.text w ≡ codes "--") words.now → result ≡ Err FlagFault.Unknown }
    ensures read { (result ≡ flags_of (map S.text words.now)) ⊎ (result ≡ Err FlagFault.Memory) }
{
    if words.iter().any(|word| word.as_str() == "--") {
        return Err(FlagFault::Unknown);
    }
    parse_flags(alloc, words)
}

/// The flags, where no word ends them.
fn parse_flags<S: AsStr>(alloc: Global, words: &[S]) -> Result<Flags, FlagFault>
    requires { All (λ w. S.text w ≢ codes "--") words.now }
    ensures { (result ≡ flags_of (map S.text words.now)) ⊎ (result ≡ Err FlagFault.Memory) }
{
    let serial = Arg::new(alloc, "serial")
        .long("serial")
        .action(ArgAction::Count);
    let journal = Arg::new(alloc, "journal")
        .long("journal")
        .action(ArgAction::Count);
    let bare = Command::new(alloc, "zonereplay")
        .no_binary_name(true)
        .disable_help_flag(true)
        .disable_version_flag(true)
        .disable_help_subcommand(true);
    let one = bare.arg(serial)?;
    let command = one.arg(journal)?;
    match command.try_get_matches_from(words) {
        Ok(matches) => {
            let serial = matches.get_count("serial") > 0;
            flags_together(serial, matches.get_count("journal") > 0)
        }
        Err(error) if error.kind() == ErrorKind::OutOfMemory => Err(FlagFault::Memory),
        Err(_) => Err(FlagFault::Unknown),
    }
}

/// What both flags ask for.
fn flags_together(serial: bool, journal: bool) -> Result<Flags, FlagFault>
    ensures { result ≡ flags_together serial journal }
{
    if serial && journal {
        Err(FlagFault::NeedsThreads)
    } else {
        Ok(Flags { serial, journal })
    }
}
