ghost use Rattle.std.specs.Prelude.{◌≡◌, ◌<◌};
ghost use Rattle.st_rules.specs.Generator as generator;

use st_base::{ClientId, FileId, NodeId, PageNo, ServerId};
use std::marker::Model;

/// The numbers that follow from a seed. Contracts see their state.
#[derive(Drop)]
pub struct Draws {
    state: u64,
}

impl Model for Draws {
    ghost use Rattle.std.specs.Prelude.{ℕ};

    ghost Value = { ℕ };

    ghost view = { λ d. d.state };
}

impl Draws {
    /// The numbers that follow from this seed.
    pub fn new(seed: u64) -> Draws
        ensures { result ≡ seed }
    {
        Draws { state: seed }
    }

    /// The next state.
    #[tactic(auto, unfolding(st_rules::specs::Generator::next))]
    fn step(&mut self)
        ensures { self.new ≡ generator.next self.old }
    {
        self.state = self
            .state
            .wrapping_mul(6_364_136_223_846_793_005)
            .wrapping_add(1_442_695_040_888_963_407);
    }

    /// The next number, below `bound`.
    #[tactic(auto, unfolding(st_rules::specs::Generator::state_after, st_rules::specs::Generator::below))]
    pub fn draw(&mut self, bound: u64) -> u64
        requires { 0 < bound }
        ensures value { result ≡ generator.draw 1 bound self.old }
        ensures state { self.new ≡ generator.state_after 1 self.old }
        ensures bound { result < bound }
    {
        self.step();
        (self.state >> 33) % bound
    }

    /// A node: c1, c2, c3, s1, s2.
    pub fn node(&mut self) -> NodeId
        ensures value { result ≡ generator.node 1 self.old }
        ensures state { self.new ≡ generator.state_after 1 self.old }
    {
        let number = self.draw(5);
        if number < 3 {
            NodeId::Client(ClientId((number + 1) as u16))
        } else {
            NodeId::Server(ServerId((number - 2) as u16))
        }
    }

    /// One of three clients.
    pub fn client(&mut self) -> ClientId
        ensures value { result ≡ generator.asker 1 self.old }
        ensures state { self.new ≡ generator.state_after 1 self.old }
    {
        ClientId((1 + self.draw(3)) as u16)
    }

    /// A file of one of two servers, one of eight.
    #[tactic(auto, unfolding(st_rules::specs::Generator::state_after))]
    pub fn file(&mut self) -> FileId
        ensures value { result ≡ generator.file 1 self.old }
        ensures state { self.new ≡ generator.state_after 2 self.old }
    {
        let server = ServerId((1 + self.draw(2)) as u16);
        let ino = (2 + self.draw(8)) as u32;
        FileId { server, ino }
    }

    /// One of the first four pages.
    pub fn page(&mut self) -> PageNo
        ensures value { result ≡ generator.page 1 self.old }
        ensures state { self.new ≡ generator.state_after 1 self.old }
    {
        PageNo(self.draw(4) as u32)
    }

    /// A byte.
    pub fn byte(&mut self) -> u8
        ensures value { result ≡ generator.draw 1 256 self.old }
        ensures state { self.new ≡ generator.state_after 1 self.old }
    {
        self.draw(256) as u8
    }

    /// A clock's increment if clocks advance one by one.
    pub fn increment(&mut self) -> u64
        ensures value { result ≡ generator.increment 1 self.old }
        ensures state { self.new ≡ generator.state_after 1 self.old }
    {
        100 + self.draw(2)
    }

    /// The number of one of the `last` last ones of `count`, from 1. If there is none, nothing
    /// is drawn.
    #[tactic(auto, unfolding(st_rules::specs::Generator::recent))]
    pub fn recent(&mut self, count: u64, last: u64) -> Option<u64>
        requires { 0 < last }
        ensures { (result, self.new) ≡ generator.recent count last self.old }
    {
        if count == 0 {
            None
        } else {
            Some(count - self.draw(count.min(last)))
        }
    }
}
