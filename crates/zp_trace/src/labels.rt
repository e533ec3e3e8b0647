//! The commands so far, and which labels they bind.
ghost use Rattle.std.specs.Prelude.{◌≡◌, ◌<◌, ◌^◌, ◌↔◌, ◌++◌, [], ◌∷◌, Any, IsTrue, OnOk, OnErr, length};
ghost use Rattle.zp_model.specs.declared.constants.TheConstants.{MAX_WORKERS};
ghost use Rattle.zp_model.specs.Naming.{IsName};
ghost use Rattle.zp_trace.specs.Grammar.{Binds, HasLabel};
ghost use Rattle.zp_trace.specs.LabelKeys.{bound_key};

use crate::keys::label_key;
use crate::line::{Call, CommandLine};
use crate::trace::Commands;
use std::alloc::{AllocError, Global};
use std::collections::BTreeSet;
use std::marker::Model;
use zp_model::{MAX_WORKERS, Name, Worker};

/// Commands in order, with an index of the labels that they bind: it says of each label whether it is bound, and no command is
/// looked at again.
#[derive(Drop)]
pub struct LabelledCommands {
    commands: Vec<CommandLine>,
    /// The numbers of the labels that they bind, each with its worker in it.
    bound: BTreeSet<u64>,
}

impl Model for LabelledCommands {
    ghost use Rattle.std.specs.Prelude.{List};
    ghost use Rattle.zp_trace.specs.declared.line.CommandLine.{CommandLine};

    ghost Value = { List CommandLine };

    ghost use Rattle.zp_trace.specs.LabelKeys.{AreBoundBy};

    ghost view = { λ c. c.commands.items };

    ghost invariant = { λ c. AreBoundBy c.commands.items c.bound };
}

/// The number of a worker's label, which no other label of a worker has.
fn bound_key(worker: Worker, label: Name) -> u64
    ensures key { result ≡ bound_key worker label }
    ensures worker { worker < MAX_WORKERS }
    ensures name { IsName label }
{
    u64::from(worker.number()) + u64::from(MAX_WORKERS) * label_key(label)
}

impl LabelledCommands {
    pub fn new(alloc: Global) -> LabelledCommands
        ensures { result ≡ [] }
    {
        LabelledCommands {
            commands: Vec::new(alloc),
            bound: BTreeSet::new(alloc),
        }
    }

    pub fn len(&self) -> usize
        ensures { result ≡ length self.now }
    {
        self.commands.len()
    }

    /// Whether one of them binds this label of this worker, if it gets a block.
    fn is_bound(&self, worker: Worker, label: Name) -> bool
        ensures { IsTrue result ↔ Any (Binds worker label) self.now }
    {
        self.bound.contains(&bound_key(worker, label))
    }

    /// Whether the label that a command names a block by stands in one of these.
    pub fn has_label(&self, command: &CommandLine) -> bool
        ensures { IsTrue result ↔ HasLabel self.now command.now.worker command.now.call }
    {
        match command.call {
            Call::Free { label } | Call::Post { label, .. } => {
                self.is_bound(command.worker, label)
            }
            Call::Info
            | Call::Alloc { .. }
            | Call::Low { .. }
            | Call::Collect { .. }
            | Call::Drain
            | Call::Isolate { .. }
            | Call::Release { .. } => true,
        }
    }

    /// Puts a command at the end. Where memory is wanting, all stays as it was: there is room for the command before its label is
    /// noted.
    pub fn push(&mut self, command: CommandLine) -> Result<(), AllocError>
        ensures ok { OnOk result (self.new ≡ self.old ++ command ∷ []) }
        ensures err { OnErr result (self.new ≡ self.old) }
    {
        let CommandLine { worker, call } = command;
        self.commands.reserve(1)?;
        if let Some(label) = call.bound_label() {
            self.bound.insert(bound_key(worker, label))?;
        }
        self.commands.push_reserved(CommandLine { worker, call });
        Ok(())
    }

    /// The commands, without the index.
    pub fn into_commands(self) -> Commands
        ensures { result ≡ self }
    {
        let LabelledCommands { commands, bound: _ } = self;
        Commands::of(commands)
    }
}
