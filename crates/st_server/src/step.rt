// A whole step of a server.
ghost use Rattle.std.specs.Prelude.{◌≡◌, ◌≤◌, ◌<◌, ◌^◌, [], true, OnOk, OnErr};
ghost use Rattle.st_rules.specs.Server as server;
ghost use Rattle.st_server.specs.RuleConditions.{comes_fit};
ghost use Rattle.st_server.specs.Room.{HasRoom, taken_locks};
ghost use Rattle.st_server.specs.Invariants.{IsSound};
ghost use Rattle.st_server.specs.Steps.{Fails, Keeps, stepped};

use crate::turn::ServerTurn;
use st_base::Stamp;
use st_rules::ServerInput;
use std::alloc::AllocError;

impl ServerTurn {
    /// The passes that come after the rule for the input.
    fn passes(&mut self, now: Stamp, input: &ServerInput) -> Result<(), AllocError>
        requires { taken_locks (server.suspecting_on self.old now input.now).state.locks < 2 ^ 32 }
        ensures ok { OnOk result (self.new ≡ server.demanding (server.granting (server.suspecting_on self.old now input.now) now) now input.now) }
        ensures kept { Keeps self.old self.new }
    {
        self.suspecting_on(now, input)?;
        self.granting(now)?;
        self.demanding(now, input)
    }

    /// A step: thefts, the rule for the input, and the passes.
    pub(crate) fn step(&mut self, now: Stamp, input: &ServerInput) -> Result<(), AllocError>
        requires time { now.0 ≤ 2 ^ 62 }
        requires fits { comes_fit input.now ≡ true }
        requires room { HasRoom self.old.state }
        requires sound { IsSound self.old.state }
        requires empty { self.old.out ≡ [] }
        ensures ok { OnOk result (self.new ≡ stepped self.old now input.now) }
        ensures err { OnErr result (Fails self.old self.new (stepped self.old now input.now)) }
    {
        self.thefts(now)?;
        self.take_input(now, input)?;
        self.passes(now, input)
    }
}
