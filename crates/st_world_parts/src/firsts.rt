// The first life of each key that ended.
ghost use Rattle.std.specs.Prelude.{◌≡◌, ◌<◌, if◌then◌else◌, Some, None};
ghost use Rattle.std.specs.Option.{option_copied};
ghost use Rattle.indexmap.specs.IndexMap.{get, spare};
ghost use Rattle.st_world_parts.specs.Firsts.{first_of, key_of, life_key, same_key};
ghost use Rattle.st_world_parts.specs.declared.firsts.LifeKey.{LifeKey};

use indexmap::IndexMap;
use st_base::{ClientId, Life, ServerId};
use st_rules::LeaseLife;

/// A client's life at a server, by plain numbers: a key of an index.
#[derive(Clone, Copy, Debug, PartialEq, Eq, Hash)]
pub struct LifeKey {
    pub client: u16,
    pub server: u16,
    pub life: u64,
}

/// Returns the key of a client's life at a server.
pub fn life_key(client: ClientId, server: ServerId, life: Life) -> LifeKey
    ensures { result ≡ life_key client server life }
{
    LifeKey {
        client: client.0,
        server: server.0,
        life: life.0,
    }
}

/// The life under a key.
pub fn first(firsts: &IndexMap<LifeKey, LeaseLife>, key: LifeKey) -> Option<LeaseLife>
    ensures { result ≡ get same_key firsts.now key }
{
    firsts.get(&key).copied()
}

fn put(firsts: &mut IndexMap<LifeKey, LeaseLife>, key: LifeKey, life: LeaseLife)
    requires { 0 < spare firsts.old }
    ensures { (q : LifeKey) → get same_key firsts.new q ≡ (if same_key key q then Some life else get same_key firsts.old q) }
{
    // The life that was there is dropped; there is room, so no memory is taken.
    let _old = firsts.insert(key, life).unwrap();
}

/// Keeps a life under its key, if there is none yet. There must be room for one more key.
pub fn keep_first(firsts: &mut IndexMap<LifeKey, LeaseLife>, life: LeaseLife)
    requires { 0 < spare firsts.old }
    ensures { (q : LifeKey) → get same_key firsts.new q ≡ first_of (get same_key firsts.old q) (if same_key (key_of life) q then Some life else None) }
{
    let key = life_key(life.client, life.server, life.life);
    if first(firsts, key).is_none() {
        put(firsts, key, life);
    }
}
