// The last write command of each owner.
ghost use Rattle.std.specs.Prelude.{◌≡◌, ◌<◌, if◌then◌else◌, unwrap_or, Some};
ghost use Rattle.indexmap.specs.IndexMap.{get, spare};
ghost use Rattle.st_world_parts.specs.Owners.{owner_key, same_key};
ghost use Rattle.st_world_parts.specs.declared.owners.OwnerKey.{OwnerKey};

use indexmap::IndexMap;
use st_rules::LogOwner;

/// A client, a life and a page of a file, by plain numbers: a key of an index.
#[derive(Clone, Copy, Debug, PartialEq, Eq, Hash)]
pub struct OwnerKey {
    pub client: u16,
    pub life: u64,
    pub server: u16,
    pub ino: u32,
    pub page: u32,
}

/// Returns the key of an owner.
pub fn owner_key(of: LogOwner) -> OwnerKey
    ensures { result ≡ owner_key of }
{
    OwnerKey {
        client: of.client.0,
        life: of.life.0,
        server: of.file.server.0,
        ino: of.file.ino,
        page: of.page.0,
    }
}

/// The number under an owner, or 0.
pub fn number_of(last: &IndexMap<OwnerKey, u64>, of: LogOwner) -> u64
    ensures { result ≡ unwrap_or (get same_key last.now (owner_key of)) 0 }
{
    match last.get(&owner_key(of)) {
        Some(number) => *number,
        None => 0,
    }
}

/// Puts a number under an owner. There must be room for one more key.
pub fn put_number(last: &mut IndexMap<OwnerKey, u64>, of: LogOwner, number: u64)
    requires { 0 < spare last.old }
    ensures { (q : OwnerKey) → get same_key last.new q ≡ (if same_key (owner_key of) q then Some number else get same_key last.old q) }
{
    // The number that was there is dropped; there is room, so no memory is taken.
    let _old = last.insert(owner_key(of), number).unwrap();
}
