// The kinds of messages: their numbers, and between whom they go.
ghost use Rattle.std.specs.Prelude.{◌≡◌};
ghost use Rattle.st_messages.specs.Kinds as kinds;

/// The kinds of messages. `Patch` is the application's request in version 2; all other kinds are in
/// version 1.
#[derive(Clone, Copy, Debug, PartialEq, Eq)]
pub enum Kind {
    Hello,
    KeepAlive,
    Acquire,
    Released,
    Map,
    Allocate,
    Cut,
    Name,
    Reassert,
    DemandSeen,
    Welcome,
    Ack,
    Nack,
    Granted,
    Queued,
    Demand,
    Extents,
    Named,
    Reasserted,
    Tick,
    App,
    Patch,
    AppDone,
    Submit,
    Done,
}

/// The nodes that send or receive a message.
#[derive(Clone, Copy, Debug, PartialEq, Eq)]
pub enum Party {
    Client,
    Server,
    /// A client or a server.
    Node,
    /// The node's own surroundings: its applications, disks and clock.
    Surroundings,
}

/// The range of a number in a header.
#[derive(Clone, Copy, Debug, PartialEq, Eq)]
pub enum Need {
    Zero,
    Positive,
    Any,
}

impl Party {
    /// Returns whether the node with this number is one of them.
    pub fn includes(self, node: u16) -> bool
        ensures { result ≡ kinds.includes self node }
    {
        match self {
            Party::Client => 1 <= node && node <= 16,
            Party::Server => 32_769 <= node && node <= 32_772,
            Party::Node => (1 <= node && node <= 16) || (32_769 <= node && node <= 32_772),
            Party::Surroundings => node == 0,
        }
    }
}

impl Need {
    /// Returns whether the number is in the range.
    #[tactic(auto, using(crate::proofs::Ranges::in_word64))]
    pub fn allows(self, number: u64) -> bool
        ensures { result ≡ kinds.allows self number }
    {
        match self {
            Need::Zero => number == 0,
            Need::Positive => 1 <= number,
            Need::Any => true,
        }
    }
}

impl Kind {
    /// Returns who sends messages of this kind.
    pub fn sender(self) -> Party
        ensures { result ≡ kinds.sender self }
    {
        match self {
            Kind::Tick | Kind::App | Kind::Patch | Kind::Done => Party::Surroundings,
            Kind::Welcome
            | Kind::Ack
            | Kind::Nack
            | Kind::Granted
            | Kind::Queued
            | Kind::Demand
            | Kind::Extents
            | Kind::Named
            | Kind::Reasserted => Party::Server,
            _ => Party::Client,
        }
    }

    /// Returns who receives messages of this kind.
    pub fn receiver(self) -> Party
        ensures { result ≡ kinds.receiver self }
    {
        match self {
            Kind::AppDone | Kind::Submit => Party::Surroundings,
            Kind::Tick => Party::Node,
            Kind::App
            | Kind::Patch
            | Kind::Done
            | Kind::Welcome
            | Kind::Ack
            | Kind::Nack
            | Kind::Granted
            | Kind::Queued
            | Kind::Demand
            | Kind::Extents
            | Kind::Named
            | Kind::Reasserted => Party::Client,
            _ => Party::Server,
        }
    }

    /// Returns the range of the life in the header.
    pub fn life(self) -> Need
        ensures { result ≡ kinds.life_of self }
    {
        match self {
            Kind::Tick | Kind::App | Kind::Patch | Kind::AppDone | Kind::Submit | Kind::Done =>
                Need::Zero,
            _ => Need::Positive,
        }
    }

    /// Returns the range of the epoch in the header.
    pub fn epoch(self) -> Need
        ensures { result ≡ kinds.epoch_of self }
    {
        match self {
            Kind::Hello
            | Kind::Tick
            | Kind::App
            | Kind::Patch
            | Kind::AppDone
            | Kind::Submit
            | Kind::Done => Need::Zero,
            _ => Need::Positive,
        }
    }

    /// Returns the range of the request number in the header.
    pub fn request(self) -> Need
        ensures { result ≡ kinds.request_of self }
    {
        match self {
            Kind::Hello
            | Kind::DemandSeen
            | Kind::Welcome
            | Kind::Demand
            | Kind::Tick
            | Kind::App
            | Kind::Patch
            | Kind::AppDone
            | Kind::Submit
            | Kind::Done => Need::Zero,
            Kind::Nack | Kind::Granted => Need::Any,
            _ => Need::Positive,
        }
    }

    /// Returns the range of the stamp in the header.
    pub fn stamp(self) -> Need
        ensures { result ≡ kinds.stamp_of self }
    {
        match self {
            Kind::DemandSeen
            | Kind::Demand
            | Kind::Tick
            | Kind::App
            | Kind::Patch
            | Kind::AppDone
            | Kind::Submit
            | Kind::Done => Need::Zero,
            _ => Need::Any,
        }
    }
}
