// Servers with containers, and the messages between them.
ghost use Rattle.std.specs.Prelude.{◌≡◌, ◌≤◌, ◌<◌, ◌+◌, ◌++◌, ◌∷◌, [], ℕ, IfOk, OnOk, Some, None, length, map, slice_get};
ghost use Rattle.st_move.specs.Containers as containers;
ghost use Rattle.st_move.specs.Network.{CanHappen, IsSentAt, IsSiteAt, addressed, turned};
ghost use Rattle.st_move.specs.World as worlds;
ghost use Rattle.st_rules.specs.World.{numbered};

use crate::record::MoveMessage;
use crate::site::MoveSite;
use crate::update::Update;
use crate::world::{MoveAnswer, MoveEvent, SentMove};
use st_base::ServerId;
use std::alloc::{AllocError, Global};
use std::marker::Model;

/// Servers with containers, and every message that was sent.
#[derive(Drop)]
pub(crate) struct MoveWorld {
    alloc: Global,
    sites: Vec<MoveSite>,
    sent: Vec<SentMove>,
}

impl Model for MoveWorld {
    ghost use Rattle.st_move.specs.World as shown;

    ghost Value = { shown.MoveWorld };

    ghost view = { λ w. record { sites = w.sites.items; sent = w.sent.items } };
}

/// One answer.
fn one(alloc: Global, answer: MoveAnswer) -> Result<Vec<MoveAnswer>, AllocError>
    ensures { IfOk result (λ v. v.items ≡ answer ∷ []) }
{
    let mut answers = Vec::new(alloc);
    answers.push(answer)?;
    Ok(answers)
}

/// This many servers as they begin.
fn fresh_sites(alloc: Global, servers: u16, containers: u32) -> Result<Vec<MoveSite>, AllocError>
    requires { 1 ≤ servers }
    ensures { IfOk result (λ v. v.items ≡ worlds.sites_behind servers containers 0 servers) }
{
    let mut sites = Vec::new(alloc);
    for place in 0..servers {
        sites.push(MoveSite::new(alloc, ServerId(place + 1), servers, containers)?)?;
    }
    Ok(sites)
}

/// The answer to a message, with the server that it is for.
fn addressed(
    alloc: Global,
    to: ServerId,
    answer: Option<MoveMessage>,
) -> Result<Vec<(ServerId, MoveMessage)>, AllocError>
    ensures { IfOk result (λ v. v.items ≡ addressed to answer) }
{
    let mut messages = Vec::new(alloc);
    match answer {
        None => Ok(messages),
        Some(answer) => {
            messages.push((to, answer))?;
            Ok(messages)
        }
    }
}

/// A message goes last, and its number is returned.
fn send_one(
    sent: &mut Vec<SentMove>,
    answers: &mut Vec<MoveAnswer>,
    message: SentMove,
) -> Result<(), AllocError>
    ensures sent { OnOk result (sent.new.items ≡ sent.old.items ++ message ∷ []) }
    ensures told { OnOk result (answers.new.items ≡ answers.old.items ++ MoveAnswer.Sends (length sent.old.items + 1) message ∷ []) }
{
    let copy = message.copy()?;
    sent.push(message)?;
    answers.push(MoveAnswer::Sends(sent.len() as u64, copy))?;
    Ok(())
}

/// Messages of one server go last, and their numbers are returned.
fn send_all(
    alloc: Global,
    sent: &mut Vec<SentMove>,
    from: ServerId,
    messages: Vec<(ServerId, MoveMessage)>,
) -> Result<Vec<MoveAnswer>, AllocError>
    ensures sent { OnOk result (sent.new.items ≡ sent.old.items ++ map (worlds.sent_move from) messages.items) }
    ensures told { IfOk result (λ v. v.items ≡ worlds.sends_behind (length sent.old.items) (map (worlds.sent_move from) messages.items)) }
{
    let mut answers = Vec::new(alloc);
    for (to, message) in messages {
        let message = SentMove {
            from,
            to,
            message,
            lost: false,
        };
        send_one(sent, &mut answers, message)?;
    }
    Ok(answers)
}

impl MoveWorld {
    /// This many servers with this many containers, as they begin.
    pub(crate) fn new(alloc: Global, servers: u16, containers: u32) -> Result<MoveWorld, AllocError>
        requires { 1 ≤ servers }
        ensures { IfOk result (λ w. w ≡ worlds.fresh_world servers containers) }
    {
        let sites = fresh_sites(alloc, servers, containers)?;
        let sent = Vec::new(alloc);
        Ok(MoveWorld { alloc, sites, sent })
    }

    /// How many messages were sent.
    pub(crate) fn sent_count(&self) -> u64
        ensures { result ≡ length self.now.sent }
    {
        self.sent.len() as u64
    }

    fn site_at(&self, s: ServerId) -> Option<usize>
        ensures { IsSiteAt self.now.sites s result }
    {
        if s.0 == 0 || s.0 as usize > self.sites.len() {
            return None;
        }
        Some((s.0 - 1) as usize)
    }

    fn sent_at(&self, k: u32) -> Option<usize>
        ensures { IsSentAt self.now.sent k result }
    {
        if k == 0 || k as usize > self.sent.len() {
            return None;
        }
        Some((k - 1) as usize)
    }

    fn put(&mut self, s: ServerId, c: u32, update: &Update) -> Result<MoveAnswer, AllocError>
        ensures { IfOk result (λ a. worlds.put_at self.old s c update.now (numbered self.old.sites s.0) ≡ worlds.told self.new a) }
    {
        match self.site_at(s) {
            None => Ok(MoveAnswer::NoServer(s)),
            Some(at) => self.sites[at].put(c, update),
        }
    }

    fn list(&self, s: ServerId, c: u32) -> Result<MoveAnswer, AllocError>
        ensures { IfOk result (λ a. worlds.list_at self.now s c (numbered self.now.sites s.0) ≡ worlds.told self.now a) }
    {
        match self.site_at(s) {
            None => Ok(MoveAnswer::NoServer(s)),
            Some(at) => self.sites[at].list(c),
        }
    }

    fn lock(&mut self, s: ServerId, c: u32) -> Result<MoveAnswer, AllocError>
        requires { CanHappen self.old }
        ensures { IfOk result (λ a. worlds.lock_at self.old s c (numbered self.old.sites s.0) ≡ worlds.told self.new a) }
    {
        match self.site_at(s) {
            None => Ok(MoveAnswer::NoServer(s)),
            Some(at) => self.sites[at].lock(c),
        }
    }

    fn unlock(&mut self, s: ServerId, c: u32) -> MoveAnswer
        requires { CanHappen self.old }
        ensures { worlds.unlock_at self.old s c (numbered self.old.sites s.0) ≡ worlds.told self.new result }
    {
        match self.site_at(s) {
            None => MoveAnswer::NoServer(s),
            Some(at) => self.sites[at].unlock(c),
        }
    }

    /// The order comes to a server that is there, for one that may be there or not.
    fn order_at(&mut self, at: usize, c: u32, to: ServerId) -> Result<MoveAnswer, AllocError>
        requires { at < length self.old.sites }
        ensures { IfOk result (λ a. (s : ServerId) (x : MoveSite) → s.0 ≡ at + 1 → slice_get self.old.sites at ≡ Some x →
            worlds.order_for self.old s x c to (numbered self.old.sites to.0) ≡ worlds.told self.new a) }
    {
        match self.site_at(to) {
            None => Ok(MoveAnswer::NoServer(to)),
            Some(_) => self.sites[at].order(c, to),
        }
    }

    fn order(&mut self, s: ServerId, c: u32, to: ServerId) -> Result<MoveAnswer, AllocError>
        ensures { IfOk result (λ a. worlds.order_at self.old s c to (numbered self.old.sites s.0) ≡ worlds.told self.new a) }
    {
        match self.site_at(s) {
            None => Ok(MoveAnswer::NoServer(s)),
            Some(at) => self.order_at(at, c, to),
        }
    }

    fn tick_at(&mut self, s: ServerId, at: usize) -> Result<Vec<MoveAnswer>, AllocError>
        requires can { CanHappen self.old }
        requires place { s.0 ≡ at + 1 }
        requires there { at < length self.old.sites }
        ensures { IfOk result (λ v. worlds.tick_at self.old s (numbered self.old.sites s.0) ≡ turned self.new v.items) }
    {
        let images = self.sites[at].tick()?;
        send_all(self.alloc, &mut self.sent, s, images)
    }

    fn tick(&mut self, s: ServerId) -> Result<Vec<MoveAnswer>, AllocError>
        requires { CanHappen self.old }
        ensures { IfOk result (λ v. worlds.tick_at self.old s (numbered self.old.sites s.0) ≡ turned self.new v.items) }
    {
        match self.site_at(s) {
            None => one(self.alloc, MoveAnswer::NoServer(s)),
            Some(at) => self.tick_at(s, at),
        }
    }

    /// A message is taken at a server that is there.
    fn take_at(&mut self, message: &SentMove, at: usize) -> Result<Vec<MoveAnswer>, AllocError>
        requires some { 1 ≤ containers.container_of message.now.message }
        requires known { (x : MoveSite) → slice_get self.old.sites at ≡ Some x → containers.container_of message.now.message ≤ length x.containers.records }
        requires place { message.now.to.0 ≡ at + 1 }
        requires there { at < length self.old.sites }
        ensures { IfOk result (λ v. worlds.taken_by self.old message.now (numbered self.old.sites message.now.to.0) ≡ turned self.new v.items) }
    {
        let answer = self.sites[at].take(&message.message)?;
        let messages = addressed(self.alloc, message.from, answer)?;
        send_all(self.alloc, &mut self.sent, message.to, messages)
    }

    /// A message that is not lost is delivered.
    fn take(&mut self, message: &SentMove) -> Result<Vec<MoveAnswer>, AllocError>
        requires some { 1 ≤ containers.container_of message.now.message }
        requires known { (s : ℕ) (x : MoveSite) → numbered self.old.sites s ≡ Some x →
            containers.container_of message.now.message ≤ length x.containers.records }
        ensures { IfOk result (λ v. worlds.taken_by self.old message.now (numbered self.old.sites message.now.to.0) ≡ turned self.new v.items) }
    {
        match self.site_at(message.to) {
            None => one(self.alloc, MoveAnswer::NoServer(message.to)),
            Some(at) => self.take_at(message, at),
        }
    }

    /// The message of this number is delivered, unless it is lost.
    #[tactic(auto, unfolding(crate::specs::World::deliver_at))]
    fn deliver_message(&mut self, k: u32, message: &SentMove) -> Result<Vec<MoveAnswer>, AllocError>
        requires some { 1 ≤ containers.container_of message.now.message }
        requires known { (s : ℕ) (x : MoveSite) → numbered self.old.sites s ≡ Some x →
            containers.container_of message.now.message ≤ length x.containers.records }
        ensures { IfOk result (λ v. worlds.deliver_at self.old k (Some message.now) ≡ turned self.new v.items) }
    {
        if message.lost {
            one(self.alloc, MoveAnswer::LostMessage(k))
        } else {
            self.take(message)
        }
    }

    fn deliver(&mut self, k: u32) -> Result<Vec<MoveAnswer>, AllocError>
        requires { CanHappen self.old }
        ensures { IfOk result (λ v. worlds.deliver_at self.old k (numbered self.old.sent k) ≡ turned self.new v.items) }
    {
        match self.sent_at(k) {
            None => one(self.alloc, MoveAnswer::NoMessage(k)),
            Some(at) => {
                let message = self.sent[at].copy()?;
                self.deliver_message(k, &message)
            }
        }
    }

    fn lose(&mut self, k: u32) -> Result<Vec<MoveAnswer>, AllocError>
        ensures { IfOk result (λ v. worlds.lose_at self.old k (numbered self.old.sent k) ≡ turned self.new v.items) }
    {
        match self.sent_at(k) {
            None => one(self.alloc, MoveAnswer::NoMessage(k)),
            Some(at) => {
                if self.sent[at].lost {
                    return one(self.alloc, MoveAnswer::LostMessage(k));
                }
                self.sent[at].lost = true;
                Ok(Vec::new(self.alloc))
            }
        }
    }

    /// One event happens, and is answered. If memory runs out nothing is known of the world.
    #[tactic(auto, unfolding(crate::specs::World::happens))]
    pub(crate) fn happens(&mut self, event: &MoveEvent) -> Result<Vec<MoveAnswer>, AllocError>
        requires { CanHappen self.old }
        ensures { IfOk result (λ v. worlds.happens self.old event.now ≡ turned self.new v.items) }
    {
        match event {
            MoveEvent::Put(s, c, update) => one(self.alloc, self.put(*s, *c, update)?),
            MoveEvent::List(s, c) => one(self.alloc, self.list(*s, *c)?),
            MoveEvent::Lock(s, c) => one(self.alloc, self.lock(*s, *c)?),
            MoveEvent::Unlock(s, c) => one(self.alloc, self.unlock(*s, *c)),
            MoveEvent::Order(s, c, to) => one(self.alloc, self.order(*s, *c, *to)?),
            MoveEvent::Tick(s) => self.tick(*s),
            MoveEvent::Deliver(k) => self.deliver(*k),
            MoveEvent::Lose(k) => self.lose(*k),
        }
    }
}
