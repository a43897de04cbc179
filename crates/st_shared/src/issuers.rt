// Whose each command is.
ghost use Rattle.std.specs.Prelude.{◌≡◌, map};
ghost use Rattle.st_rules.specs.World.{numbered};
ghost use Rattle.st_shared.specs.Shared as rules;

use st_base::ClientId;

/// The client that submitted a command, and whether it stopped or expired since.
#[derive(Clone, Copy, Debug, PartialEq, Eq)]
pub struct Issuer {
    pub client: ClientId,
    pub stopped: bool,
    pub expired: bool,
}

/// Whose the command of this number is, if there is one.
pub fn issuer_of(issuers: &[Issuer], n: u64) -> Option<Issuer>
    ensures { result ≡ numbered issuers.now n }
{
    if n == 0 {
        return None;
    }
    issuers.get((n - 1) as usize).copied()
}

/// Whether the command's client expired since.
pub fn is_expired(issuer: Option<Issuer>) -> bool
    ensures { result ≡ rules.is_expired issuer }
{
    match issuer {
        None => false,
        Some(issuer) => issuer.expired,
    }
}

/// Whether the command's client stopped since.
pub fn is_silenced(issuer: Option<Issuer>) -> bool
    ensures { result ≡ rules.is_silenced issuer }
{
    match issuer {
        None => false,
        Some(issuer) => issuer.stopped,
    }
}

fn stopped(client: ClientId, issuer: Issuer) -> Issuer
    ensures { result ≡ rules.stop_issuer client issuer }
{
    if issuer.client == client {
        Issuer {
            client: issuer.client,
            stopped: true,
            expired: issuer.expired,
        }
    } else {
        issuer
    }
}

/// The client of its commands stopped.
pub fn stop_issuer(issuers: &mut [Issuer], client: ClientId)
    ensures { issuers.new ≡ map (rules.stop_issuer client) issuers.old }
{
    for issuer in issuers.iter_mut() {
        *issuer = stopped(client, *issuer);
    }
}

fn expired(client: ClientId, issuer: Issuer) -> Issuer
    ensures { result ≡ rules.expire_issuer client issuer }
{
    if issuer.client == client {
        Issuer {
            client: issuer.client,
            stopped: issuer.stopped,
            expired: true,
        }
    } else {
        issuer
    }
}

/// The client of its commands expired.
pub fn expire_issuer(issuers: &mut [Issuer], client: ClientId)
    ensures { issuers.new ≡ map (rules.expire_issuer client) issuers.old }
{
    for issuer in issuers.iter_mut() {
        *issuer = expired(client, *issuer);
    }
}
