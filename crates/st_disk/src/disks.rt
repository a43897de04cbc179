// The disks, and the calls on them.
ghost use Rattle.std.specs.Prelude.{◌≡◌, ◌<◌, ◌+◌, IfOk, OnOk, OnErr, Some, length, slice_get};
ghost use Rattle.std.specs.Option.{option_map};
ghost use Rattle.st_rules.specs.declared.disks.DiskCommand.{DiskCommand};
ghost use Rattle.st_rules.specs.Disks as disks;
ghost use Rattle.st_rules.specs.Disks.{fresh_disks};
ghost use Rattle.st_disk.specs.CommandStates.{standing_of};
ghost use Rattle.st_disk.specs.Calls.{Answers, HasBlock, IsWrite, SameSize, ended, sampled_at, shown, told, written_at};
ghost use Rattle.st_base.specs.declared.disk.Command.TheVariants.{Read};

use crate::blocks::Blocks;
use crate::commands::{
    CommandState, command_at, effect_command, index_of, report_command, sample_command, standing_of,
};
use crate::kept::{FRESH_TAG, KeptCommand};
use crate::refusal::DiskRefusal;
use st_base::{BlockAt, Command, PageBytes, Tag};
use st_rules::{Block, Report};
use std::alloc::{AllocError, Global};
use std::marker::Model;

/// Disks with their blocks and commands. Only blocks that were written are kept.
#[derive(Drop)]
pub struct Disks {
    disks: u16,
    blocks: u32,
    written: Blocks,
    commands: Vec<KeptCommand>,
    zeros: PageBytes,
}

impl Model for Disks {
    ghost use Rattle.std.specs.Prelude.{◌≡◌};
    ghost use Rattle.st_base.specs.Page.{filled};
    ghost use Rattle.st_rules.specs.Disks as shared_disks;

    ghost Value = { shared_disks.Disks };

    ghost view = { λ d. record { disks = d.disks; blocks = d.blocks; written = d.written; commands = d.commands.items } };

    ghost invariant = { λ d. d.zeros ≡ filled 0 };
}

impl Disks {
    /// Makes this number of disks with this number of blocks each. No block was written, and there
    /// are no commands. It does not allocate.
    pub fn new(alloc: Global, disks: u16, blocks: u32) -> Disks
        ensures { result ≡ fresh_disks disks blocks }
    {
        Disks {
            disks,
            blocks,
            written: Blocks::new(alloc),
            commands: Vec::new(alloc),
            zeros: PageBytes::filled(0),
        }
    }

    /// Takes a command, and returns its number: 1, 2 and so on. The command has no effect yet.
    pub fn submit(&mut self, command: Command) -> Result<u64, AllocError>
        ensures ok { OnOk result (self.new ≡ disks.submit self.old command) }
        ensures number { IfOk result (λ n. n ≡ length self.new.commands) }
        ensures size { SameSize self.old self.new }
        ensures err { OnErr result (self.new ≡ self.old) }
    {
        self.commands.push(KeptCommand::new(command))?;
        Ok(self.commands.len() as u64)
    }

    /// Returns the state of the command of this number, if there is one. It does not allocate.
    pub fn standing(&self, n: u64) -> Option<CommandState>
        ensures { result ≡ option_map standing_of (disks.command self.now n) }
    {
        standing_of(command_at(&self.commands, n))
    }

    /// Returns the tag and the bytes of a block: birth 0 and zeros if it was never written. It does
    /// not allocate.
    pub fn block(&self, at: BlockAt) -> (Tag, &PageBytes)
        requires exists { HasBlock self.now at }
        ensures tag { result.0 ≡ (disks.block self.now at).tag }
        ensures bytes { result.1.now ≡ (disks.block self.now at).bytes }
    {
        match self.written.find(at) {
            Some(block) => (block.tag, &block.bytes),
            None => (FRESH_TAG, &self.zeros),
        }
    }

    /// Returns the tag and the bytes that a read found at its effect, or `None` if the command is
    /// not a read with an effect. It does not allocate.
    pub fn sample(&self, n: u64) -> Option<(Tag, &PageBytes)>
        ensures exact { option_map (λ s. (s.0, s.1.now)) result ≡ option_map shown (disks.sample self.now n) }
    {
        command_at(&self.commands, n)?.sample()
    }

    /// A copy of a block as it is.
    fn found(&self, at: BlockAt) -> Result<Block, AllocError>
        ensures { IfOk result (λ b. b ≡ disks.block self.now at) }
    {
        match self.written.find(at) {
            Some(block) => block.copy(),
            None => Ok(Block {
                at,
                tag: FRESH_TAG,
                bytes: self.zeros.copy()?,
            }),
        }
    }

    /// Gives the read at this index its effect.
    fn read(&mut self, index: usize, at: BlockAt) -> Result<(), AllocError>
        requires there { index < length self.old.commands }
        requires reads { (c : DiskCommand) → slice_get self.old.commands index ≡ Some c → c.what ≡ Read at }
        ensures ok { (c : DiskCommand) → slice_get self.old.commands index ≡ Some c → OnOk result (self.new ≡ sampled_at index at c self.old) }
        ensures size { SameSize self.old self.new }
        ensures err { OnErr result (self.new ≡ self.old) }
    {
        let found = self.found(at)?;
        sample_command(&mut self.commands, index, found);
        Ok(())
    }

    /// Gives the write at this index its effect.
    fn write(&mut self, index: usize, block: Block) -> Result<(), AllocError>
        requires there { index < length self.old.commands }
        requires writes { (c : DiskCommand) → slice_get self.old.commands index ≡ Some c → IsWrite c.what }
        ensures ok { (c : DiskCommand) → slice_get self.old.commands index ≡ Some c → OnOk result (self.new ≡ written_at index block c self.old) }
        ensures size { SameSize self.old self.new }
        ensures err { OnErr result (self.new ≡ self.old) }
    {
        self.written.put(block)?;
        effect_command(&mut self.commands, index);
        Ok(())
    }

    /// Gives the command at this index its effect.
    #[tactic(auto, unfolding(st_rules::specs::Disks::effect_of))]
    fn act(&mut self, index: usize, what: Command) -> Result<(), AllocError>
        requires there { index < length self.old.commands }
        requires what { (c : DiskCommand) → slice_get self.old.commands index ≡ Some c → c.what ≡ what }
        ensures ok { (c : DiskCommand) → slice_get self.old.commands index ≡ Some c → OnOk result (self.new ≡ disks.effect_of self.old (index + 1) c what) }
        ensures size { SameSize self.old self.new }
        ensures err { OnErr result (self.new ≡ self.old) }
    {
        match what {
            Command::Read { at } => self.read(index, at),
            Command::Write { at, tag, bytes } => self.write(index, Block { at, tag, bytes }),
        }
    }

    /// Gives a command its effect: a write replaces the block's tag and bytes, and a read samples
    /// the block. It is refused, in this order, if there is no such command (`NoCommand`), if it
    /// was reported (`Reported`), or if it had its effect (`Twice`). A refusal changes nothing. If
    /// the call runs out of memory, nothing changes either.
    #[tactic(auto, unfolding(st_rules::specs::Disks::disks_open))]
    pub fn effect(&mut self, n: u64) -> Result<(), DiskRefusal>
        ensures exact { Answers self.old self.new result (disks.effect self.old n) }
        ensures size { SameSize self.old self.new }
    {
        let Some(index) = index_of(&self.commands, n) else {
            return Err(DiskRefusal::NoCommand(n));
        };
        let command = &self.commands[index];
        let state = command.state();
        if state.report != Report::Open {
            return Err(DiskRefusal::Reported(n));
        }
        if state.effected {
            return Err(DiskRefusal::Twice(n));
        }
        let what = command.what()?;
        Ok(self.act(index, what)?)
    }

    /// Reports a command, which ends it. It is refused, in this order, if there is no such command
    /// (`NoCommand`), if it was reported (`Twice`), or if success is reported without an effect
    /// (`NotEffected`). A refusal changes nothing. It does not allocate.
    #[tactic(auto, unfolding(st_rules::specs::Disks::disks_open))]
    pub fn done(&mut self, n: u64, ok: bool) -> Result<(), DiskRefusal>
        ensures exact { ended result self.new ≡ told (disks.done self.old n ok) }
        ensures size { SameSize self.old self.new }
        ensures err { OnErr result (self.new ≡ self.old) }
    {
        let Some(index) = index_of(&self.commands, n) else {
            return Err(DiskRefusal::NoCommand(n));
        };
        let command = &self.commands[index];
        let state = command.state();
        if state.report != Report::Open {
            return Err(DiskRefusal::Twice(n));
        }
        if ok && !state.effected {
            return Err(DiskRefusal::NotEffected(n));
        }
        report_command(&mut self.commands, index, ok);
        Ok(())
    }
}
