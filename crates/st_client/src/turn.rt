ghost use Rattle.std.specs.Prelude.{◌≡◌, ◌<◌, true, false, IfOk, OnOk, length};
ghost use Rattle.std.specs.List.{list_all};
ghost use Rattle.st_client.specs.IdleRules.{IsIdle};
ghost use Rattle.st_client.specs.Machines.{IsBack, at_place, is_ready_at};
ghost use Rattle.st_rules.specs.ClientState as client;

use crate::parts::ClientParts;
use crate::rule::Rule;
use st_client_association::Association;
use std::alloc::AllocError;
use std::marker::Model;
use std::mem;

/// A client, with the outputs of the step so far. Contracts see it as a turn.
#[derive(Drop)]
pub struct ClientTurn {
    pub(crate) parts: Box<ClientParts>,
}

impl Model for ClientTurn {
    ghost use Rattle.st_client.specs.Machines.{IsMachineOf, turn_of};
    ghost use Rattle.st_rules.specs.ClientState as shared;

    ghost Value = { shared.ClientTurn };

    ghost view = { λ m. turn_of m.parts.value };

    ghost invariant = { λ m. IsMachineOf m.parts.value };
}

/// Puts an association in the place from which one was taken out: the last one, which came there,
/// goes last again.
fn put_back(
    associations: &mut Vec<Association>,
    place: usize,
    a: Association,
) -> Result<(), AllocError>
    ensures { OnOk result (IsBack place associations.old.items associations.new.items a) }
{
    if place < associations.len() {
        let last = mem::replace(&mut associations[place], a);
        associations.push(last)?;
        Ok(())
    } else {
        associations.push(a)?;
        Ok(())
    }
}

impl ClientTurn {
    /// A rule at the association at a place, which stays there. Most rules do nothing at most
    /// places, so it isn't inlined into the loop over places.
    #[inline(never)]
    fn at_place<R: Rule>(self, rule: &R, place: usize) -> Result<ClientTurn, AllocError>
        requires within { place < length self.state.associations }
        requires ready { is_ready_at (R.is_ready rule.now self.state.config) place self.state.associations ≡ true }
        ensures { IfOk result (λ m. m ≡ at_place (R.run rule.now) place self) }
    {
        let ClientTurn { mut parts } = self;
        let here: &mut ClientParts = &mut parts;
        let a = here.associations.swap_remove(place);
        let operations = here.operations.take_all();
        let out = mem::replace(&mut here.out, Vec::new(here.alloc));
        let turn = a.enter(here.alloc, operations, here.next_command, out);
        let turn = rule.apply(turn)?;
        let (a, operations, next_command, out) = turn.leave();
        here.operations = operations;
        here.next_command = next_command;
        here.out = out;
        put_back(&mut here.associations, place, a)?;
        Ok(ClientTurn { parts })
    }

    /// Whether a rule may do anything at an association.
    fn is_touched<R: Rule>(&self, rule: &R, a: &Association) -> bool
        ensures { result ≡ false → IsIdle (R.run rule.now) self.now.state.operations a.now }
    {
        rule.touches(a, &self.parts.operations)
    }

    /// Whether a rule may do anything at the association at a place.
    fn is_touched_at<R: Rule>(&self, rule: &R, place: usize) -> bool
        requires { place < length self.now.state.associations }
        ensures { result ≡ false → at_place (R.run rule.now) place self.now ≡ self.now }
    {
        self.is_touched(rule, &self.parts.associations[place])
    }

    /// A rule at the association at a place, which is not moved if the rule does nothing there.
    #[inline(always)]
    fn at_next<R: Rule>(self, rule: &R, place: usize) -> Result<ClientTurn, AllocError>
        requires within { place < length self.state.associations }
        requires ready { is_ready_at (R.is_ready rule.now self.state.config) place self.state.associations ≡ true }
        ensures { IfOk result (λ m. m ≡ at_place (R.run rule.now) place self) }
    {
        if self.is_touched_at(rule, place) {
            self.at_place(rule, place)
        } else {
            Ok(self)
        }
    }

    /// How many associations there are.
    fn count(&self) -> usize
        ensures { result ≡ length self.now.state.associations }
    {
        self.parts.associations.len()
    }

    /// A rule at each association, in order.
    pub(crate) fn at_each<R: Rule>(self, rule: &R) -> Result<ClientTurn, AllocError>
        requires { list_all (R.is_ready rule.now self.state.config) self.state.associations ≡ true }
        ensures { IfOk result (λ m. m ≡ client.at_each (R.run rule.now) self) }
    {
        let count = self.count();
        let mut machine = self;
        for place in 0..count {
            machine = machine.at_next(rule, place)?;
        }
        Ok(machine)
    }
}
