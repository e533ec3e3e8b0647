//! `zonereplay [--serial] [--journal]`: reads a trace on standard input and writes its output on standard output. Each worker's commands
//! are carried out in a thread of its own; with `--serial` all of them one after another in this one. `--journal` adds all that was
//! asked of each zone, with the replies.
//!
//! What it says on standard error as it ends, and with which status, is what `Exit` and `exit_status` of `zp_replay` say.
#![tactic(auto)]

ghost use Rattle.std.specs.Prelude.{◌≡◌, ◌<◌};

use std::env;
use std::io::{ErrorKind, Read, Write};
use std::marker::Brand;
use std::process::ExitCode;
use std::rt::Env;
use std::sync::Wait;
use std::sync::ledger::{Blank, Ledger};
use std::thread::Threads;
use zp_office::OpenGate;
use zp_replay::{
    Exit, Failures, FlagFault, Flags, Sink, Source, exit_status, read_flags, replay_serial,
    replay_threads,
};

fn main(rt: HostRuntime) -> ExitCode {
    let exit = match own_flags(&rt) {
        Ok(flags) => {
            let (stdin, stdout) = (rt.stdin(), rt.stdout());
            let (reads, writes) = (Blank::new(1), Blank::new(1));
            replay_streams::<Brand, Brand, _, _, _>(&rt, flags, stdin, stdout, reads, writes)
        }
        Err(fault) => Exit::Refused(fault),
    };
    // There is nobody left to tell that standard error failed.
    let _ = rt.eprint(exit);
    ExitCode::from(exit_status(exit))
}

/// The flags that the program was started with. A word that is no text is no flag.
fn own_flags(rt: &(impl Env + AllocGlobal)) -> Result<Flags, FlagFault> {
    let args = match env::args(rt) {
        Ok(args) => args,
        Err(error) if error.kind() == ErrorKind::InvalidData => return Err(FlagFault::Unknown),
        Err(_) => return Err(FlagFault::Memory),
    };
    let words: Vec<String> = args.skip(1).collect(rt.alloc())?;
    read_flags(rt.alloc(), words.as_slice())
}

/// Replays a trace from the one stream onto the other, with a ledger of the failures of each.
fn replay_streams<
    K: Ledger,
    L: Ledger,
    T: AllocGlobal + Threads + Wait + Sync,
    I: Read + Drop,
    O: Write + Drop,
>(rt: &T, flags: Flags, input: I, output: O, reads: Blank, writes: Blank) -> Exit
    requires read_name { reads.name ≡ K.name }
    requires read_parts { (reads.parts ≡ K.parts) × (0 < reads.parts) }
    requires write_name { writes.name ≡ L.name }
    requires write_parts { (writes.parts ≡ L.parts) × (0 < writes.parts) }
{
    let mut source = Source::new(input, Failures::<K>::new(reads));
    let mut sink = Sink::new(output, Failures::<L>::new(writes));
    let ended = if flags.serial {
        replay_serial(rt.alloc(), &mut source, &mut sink)
    } else {
        replay_threads(
            rt,
            rt.alloc(),
            &mut source,
            &mut sink,
            flags.journal,
            &OpenGate,
        )
    };
    match ended {
        Ok(ending) => Exit::Replayed(ending),
        Err(fault) => Exit::Broken(fault),
    }
}
