// The clients that are in.
ghost use Rattle.std.specs.Prelude.{◌≡◌, find, map, ◌^◌, ◌<◌};
ghost use Rattle.st_shared.specs.Shared as rules;

use st_base::ClientId;

/// A client that is in: it runs, or it stopped and did not expire yet.
#[derive(Clone, Copy, Debug, PartialEq, Eq)]
pub struct Member {
    pub client: ClientId,
    pub running: bool,
}

/// The client among those that are in.
pub fn member_of(members: &[Member], client: ClientId) -> Option<Member>
    ensures { result ≡ find (rules.is_member client) members.now }
{
    members
        .iter()
        .copied()
        .find(|member| member.client == client)
}

/// Whether the client is in and stopped.
pub fn is_stopped(member: Option<Member>) -> bool
    ensures { result ≡ rules.is_stopped member }
{
    match member {
        None => false,
        Some(member) => !member.running,
    }
}

fn lesser(client: ClientId, other: Option<ClientId>) -> ClientId
    ensures { result ≡ rules.lesser client other }
{
    match other {
        None => client,
        Some(other) => { if other.0 < client.0 { other } else { client } }
    }
}

/// The least client that is in.
#[tactic(auto, unfolding(crate::specs::Shared::least_member))]
pub fn least_member(members: &[Member]) -> Option<ClientId>
    ensures { result ≡ rules.least_member members.now }
{
    let mut least = None;
    let mut left = members.len();
    while left > 0 {
        left -= 1;
        least = Some(lesser(members[left].client, least));
    }
    least
}

/// The client is out.
pub fn drop_member(members: &mut Vec<Member>, client: ClientId)
    ensures { members.new.items ≡ rules.without_member client members.old.items }
{
    members.retain(|member| member.client != client);
}

fn stopped(client: ClientId, member: Member) -> Member
    ensures { result ≡ rules.stop_member client member }
{
    if member.client == client {
        Member {
            client: member.client,
            running: false,
        }
    } else {
        member
    }
}

/// The client stops.
pub fn stop_member(members: &mut [Member], client: ClientId)
    ensures { members.new ≡ map (rules.stop_member client) members.old }
{
    for member in members.iter_mut() {
        *member = stopped(client, *member);
    }
}
