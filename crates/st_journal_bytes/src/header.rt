// The header of a journal's file.
ghost use Rattle.std.specs.Prelude.{◌≡◌, ◌+◌, ◌++◌, IfErr, IfOk, OnOk, length};
ghost use Rattle.st_journal_bytes.specs.Headers as headers;
ghost use Rattle.st_journal_bytes.specs.Headers.{HeaderFits, IsHeaded, IsNoHeader, IsOther, SettingsFit};

use crate::part::{put_part, read_part};
use crate::words::{
    after_front, put_word16, put_word32, put_word64, read_word32, split_word16, split_word32,
    split_word64, word64_of,
};
use st_base::{Config, ServerId};
use std::alloc::{AllocError, Global};
use thiserror::Error;

/// The text with which a journal's file begins.
const MAGIC: [u8; 8] = [84, 65, 78, 75, 74, 82, 78, 76];

/// The version of the layout.
const VERSION: u32 = 1;

/// How many bytes the header's part has.
const BODY: usize = 86;

/// Whose journal it is: the server's number; how many servers, disks, and blocks on each disk there
/// are; and the settings.
#[derive(Clone, Copy, Debug, PartialEq, Eq)]
pub struct Identity {
    pub server: ServerId,
    pub servers: u16,
    pub disks: u16,
    pub blocks: u32,
    pub settings: Config,
}

/// What the header of a journal's file says: whose journal it is, and how many bytes an area has.
#[derive(Clone, Copy, Debug, PartialEq, Eq)]
pub struct Header {
    pub area: u32,
    pub identity: Identity,
}

/// Why a file is not opened by its header, in the order of the checks.
#[derive(Clone, Copy, Debug, PartialEq, Eq, Error)]
pub enum HeaderFault {
    #[error("the file is no journal")]
    NotJournal,
    #[error("the journal has version {0} of the layout")]
    Version(u32),
    #[error("the header of the journal is damaged")]
    Damaged,
    #[error("the journal is the one of server {}", .0.0)]
    OtherServer(ServerId),
    #[error("the journal is of a world of another shape")]
    OtherShape,
    #[error("the journal was made with other settings")]
    OtherSettings,
}

#[tactic(auto, unfolding(crate::specs::Headers::settings))]
fn put_settings(out: &mut Vec<u8>, settings: &Config) -> Result<(), AllocError>
    ensures { OnOk result (out.new.items ≡ out.old.items ++ headers.settings settings.now) }
{
    put_word64(out, settings.lease)?;
    put_word64(out, settings.renew)?;
    put_word64(out, settings.quiesce)?;
    put_word64(out, settings.flush)?;
    put_word64(out, settings.demand)?;
    put_word64(out, settings.retry)?;
    put_word64(out, settings.num)?;
    put_word64(out, settings.den)?;
    put_word64(out, settings.grain)?;
    Ok(())
}

#[tactic(auto, unfolding(crate::specs::Headers::body, crate::specs::Headers::identity))]
fn body_of(alloc: Global, header: &Header) -> Result<Vec<u8>, AllocError>
    ensures { IfOk result (λ v. v.items ≡ headers.body header.now) }
{
    let mut out = Vec::new(alloc);
    put_word32(&mut out, header.area)?;
    put_word16(&mut out, header.identity.server.0)?;
    put_word16(&mut out, header.identity.servers)?;
    put_word16(&mut out, header.identity.disks)?;
    put_word32(&mut out, header.identity.blocks)?;
    put_settings(&mut out, &header.identity.settings)?;
    Ok(out)
}

/// The bytes of a header.
#[tactic(auto, unfolding(crate::specs::Headers::header))]
pub fn header_of(alloc: Global, header: &Header) -> Result<Vec<u8>, AllocError>
    ensures { IfOk result (λ v. v.items ≡ headers.header header.now) }
{
    let body = body_of(alloc, header)?;
    let mut out = Vec::from_slice(alloc, &MAGIC)?;
    put_word32(&mut out, VERSION)?;
    put_part(&mut out, body.as_slice())?;
    Ok(out)
}

#[tactic(auto, unfolding(crate::specs::Headers::settings))]
fn settings_of(bytes: &[u8]) -> Config
    requires { length bytes.now ≡ 72 }
    ensures bytes { bytes.now ≡ headers.settings result }
    ensures fits { SettingsFit result }
{
    let (lease, rest) = split_word64(bytes);
    let (renew, rest) = split_word64(rest);
    let (quiesce, rest) = split_word64(rest);
    let (flush, rest) = split_word64(rest);
    let (demand, rest) = split_word64(rest);
    let (retry, rest) = split_word64(rest);
    let (num, rest) = split_word64(rest);
    let (den, rest) = split_word64(rest);
    Config {
        lease,
        renew,
        quiesce,
        flush,
        demand,
        retry,
        num,
        den,
        grain: word64_of(rest),
    }
}

/// The header whose part has these bytes.
#[tactic(auto, unfolding(crate::specs::Headers::body, crate::specs::Headers::identity))]
fn of_body(bytes: &[u8]) -> Header
    requires { length bytes.now ≡ 86 }
    ensures bytes { bytes.now ≡ headers.body result }
    ensures fits { HeaderFits result }
{
    let (area, rest) = split_word32(bytes);
    let (server, rest) = split_word16(rest);
    let (servers, rest) = split_word16(rest);
    let (disks, rest) = split_word16(rest);
    let (blocks, rest) = split_word32(rest);
    Header {
        area,
        identity: Identity {
            server: ServerId(server),
            servers,
            disks,
            blocks,
            settings: settings_of(rest),
        },
    }
}

/// The header with which a file begins.
///
/// # Errors
/// `NotJournal`, `Version` and `Damaged`.
pub fn read_header(bytes: &[u8]) -> Result<Header, HeaderFault>
    ensures found { IfOk result (IsHeaded bytes.now) }
    ensures none { IfErr result (IsNoHeader bytes.now) }
{
    let Some(rest) = after_front(&MAGIC, bytes) else {
        return Err(HeaderFault::NotJournal);
    };
    let Some((version, rest)) = read_word32(rest) else {
        return Err(HeaderFault::Damaged);
    };
    if version != VERSION {
        return Err(HeaderFault::Version(version));
    }
    let Some((body, _)) = read_part(rest) else {
        return Err(HeaderFault::Damaged);
    };
    if body.len() != BODY {
        return Err(HeaderFault::Damaged);
    }
    Ok(of_body(body))
}

/// Whether a journal is the one that is wanted.
///
/// # Errors
/// `OtherServer`, `OtherShape` and `OtherSettings`, in this order.
pub fn check_identity(found: &Identity, wanted: &Identity) -> Result<(), HeaderFault>
    ensures same { OnOk result (found.now ≡ wanted.now) }
    ensures other { IfErr result (IsOther found.now wanted.now) }
{
    if found.server != wanted.server {
        return Err(HeaderFault::OtherServer(found.server));
    }
    if !(found.servers == wanted.servers
        && found.disks == wanted.disks
        && found.blocks == wanted.blocks)
    {
        return Err(HeaderFault::OtherShape);
    }
    if found.settings != wanted.settings {
        return Err(HeaderFault::OtherSettings);
    }
    Ok(())
}
