// The waits that were reported to a client, and the releases that it must send.
ghost use Rattle.std.specs.Prelude.{◌≡◌, ◌<◌, ◌≤◌, ◌++◌, ◌∷◌, [], find, vec_capacity, vec_len};
ghost use Rattle.std.specs.List.{list_any};
ghost use Rattle.st_rules.specs.ClientState as client;

use st_base::{GrantNo, Mode};
use st_rules::{LockWait, Release};

/// The wait for the file, if one was reported.
pub fn wait_of(waits: &[LockWait], ino: u32) -> Option<LockWait>
    ensures { result ≡ client.wait_of waits.now ino }
{
    waits.iter().copied().find(|wait| wait.ino == ino)
}

/// Takes out the wait for the file.
pub fn drop_wait(waits: &mut Vec<LockWait>, ino: u32)
    ensures left { waits.new.items ≡ client.without_wait ino waits.old.items }
    ensures bound { vec_len waits.new ≤ vec_len waits.old }
    ensures room { vec_capacity waits.new ≡ vec_capacity waits.old }
{
    waits.retain(|wait| wait.ino != ino);
}

/// The wait goes last, in place of an earlier one for its file.
pub fn put_wait(waits: &mut Vec<LockWait>, wait: LockWait)
    requires { vec_len waits.old < vec_capacity waits.old }
    ensures { waits.new.items ≡ client.with_wait wait waits.old.items }
{
    drop_wait(waits, wait.ino);
    waits.push_reserved(wait);
}

/// Whether the release of the file under this grant, to this mode, must be sent.
pub fn has_release(releases: &[Release], ino: u32, g: GrantNo, to: Mode) -> bool
    ensures { result ≡ list_any (client.is_release ino g to) releases.now }
{
    releases
        .iter()
        .any(|release| is_release(release, ino, g, to))
}

fn is_release(release: &Release, ino: u32, g: GrantNo, to: Mode) -> bool
    ensures { result ≡ client.is_release ino g to release.now }
{
    release.ino == ino && release.g.0 == g.0 && release.to.number() == to.number()
}
