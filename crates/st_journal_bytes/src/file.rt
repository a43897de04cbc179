// A journal's file: its header, two marks, and two areas.
ghost use Rattle.std.specs.Prelude.{◌≡◌, ◌≤◌, ◌<◌, ◌^◌, true, false, None, Ok, Some, IfErr, IfOk, IfSome, IfNone, length};
ghost use Rattle.st_journal_bytes.specs.Files.{IsMadeFile, IsRefused, IsUnmade, MayBegin};
ghost use Rattle.st_journal_bytes.specs.declared.file.Current.{Current};
ghost use Rattle.st_journal_bytes.specs.declared.header.Identity.{Identity};
ghost use Rattle.st_journal_file.specs.Layout as layout;

use crate::area::{CLOSED, OPEN};
use crate::header::{Header, HeaderFault, Identity, check_identity, read_header};
use thiserror::Error;

/// The place of the mark that says that the file was made.
pub const MADE_PLACE: u64 = 110;

/// The place of the switch: the mark that says which area counts.
pub const SWITCH_PLACE: u64 = 111;

/// The place of the first area.
pub const AREAS_PLACE: u64 = 112;

/// The first bytes of a header, which are those of every header.
const START: [u8; 12] = [84, 65, 78, 75, 74, 82, 78, 76, 0, 0, 0, 1];

/// A file that was made: its header, and whether the second area counts.
#[derive(Clone, Copy, Debug, PartialEq, Eq)]
pub struct Current {
    pub second: bool,
    pub header: Header,
}

/// Why a file is not opened, in the order of the checks.
#[derive(Clone, Copy, Debug, PartialEq, Eq, Error)]
pub enum FileFault {
    #[error("the file of the journal is too short")]
    Short,
    #[error("{0}")]
    BadHeader(HeaderFault),
    #[error("the journal is damaged at {at}")]
    Damaged { at: u64 },
}

/// Whether the first bytes are zeros or bytes of a header, each for itself.
fn may_begin(front: &[u8]) -> bool
    requires { 12 ≤ length front.now }
    ensures yes { result ≡ true → MayBegin front.now }
    ensures no { result ≡ false → MayBegin front.now → ⊥ }
{
    for place in 0..12 {
        if front[place] != 0 && front[place] != START[place] {
            return false;
        }
    }
    true
}

/// Reads the header and the marks of the file of the journal that is wanted; `None` if the file was
/// not made yet: nothing was ever kept in it.
#[tactic(auto, using(crate::proofs::Marks::made_file))]
pub fn read_file(bytes: &[u8], wanted: &Identity) -> Result<Option<Current>, FileFault>
    ensures made { IfOk result (λ o. IfSome o (IsMadeFile bytes.now wanted.now)) }
    ensures unmade { IfOk result (λ o. IfNone o (IsUnmade bytes.now)) }
    ensures err { IfErr result (IsRefused bytes.now wanted.now) }
    ensures opened { (c : Current) → IsMadeFile bytes.now wanted.now c → result ≡ Ok (Some c) }
    ensures blank { IsUnmade bytes.now → result ≡ Ok None }
{
    if bytes.len() < 112 {
        return Err(FileFault::Short);
    }
    let made = bytes[110];
    if made == CLOSED && may_begin(bytes) {
        return Ok(None);
    }
    let header = match read_header(bytes) {
        Ok(header) => header,
        Err(fault) => return Err(FileFault::BadHeader(fault)),
    };
    if let Err(fault) = check_identity(&header.identity, wanted) {
        return Err(FileFault::BadHeader(fault));
    }
    if made != OPEN {
        return Err(FileFault::Damaged { at: MADE_PLACE });
    }
    if ((bytes.len() - 112) as u64) < 2 * u64::from(header.area) {
        return Err(FileFault::Short);
    }
    let second = bytes[111] == OPEN;
    if !second && bytes[111] != CLOSED {
        return Err(FileFault::Damaged { at: SWITCH_PLACE });
    }
    Ok(Some(Current { second, header }))
}

/// The bytes of the area that counts.
pub fn current_area<'a>(bytes: &'a [u8], current: &Current) -> &'a [u8]
    requires { (wanted : Identity) × IsMadeFile bytes.now wanted current.now }
    ensures area { (wanted : Identity) (m : IsMadeFile bytes.now wanted current.now) → result.now ≡ layout.area_of current.now.second m.file }
    ensures size { length result.now ≡ current.now.header.area }
    ensures small { length result.now < 2 ^ 32 }
{
    let size = current.header.area as usize;
    if current.second {
        &bytes[112 + size..112 + 2 * size]
    } else {
        &bytes[112..112 + size]
    }
}
