// Areas: a snapshot, records after open gates, and a closed gate.
ghost use Rattle.std.specs.Prelude.{◌≡◌, ◌<◌, ◌+◌, ◌^◌, ◌++◌, List, ℕ, IfErr, IfNone, IfOk, IfSome, OnErr, length};
ghost use Rattle.st_journal_bytes.specs.Areas.{HasRecords, IsClosed, IsDamaged, IsRead, IsUnread, StopsAt};
ghost use Rattle.st_journal_bytes.specs.Plain.{plain};
ghost use Rattle.st_journal_file.specs.Layout.{IsArea, opened};

use crate::part::read_part;
use thiserror::Error;

/// A closed gate.
pub const CLOSED: u8 = 0;

/// An open gate.
pub const OPEN: u8 = 255;

/// Neither a closed gate nor a record after an open one can be read.
#[derive(Clone, Copy, Debug, PartialEq, Eq, Error)]
#[error("the journal is damaged at {at}")]
pub struct Damaged {
    pub at: u64,
}

/// Where the closed gate of an area is, and how many records it has.
#[derive(Clone, Copy, Debug, PartialEq, Eq)]
pub struct AreaEnd {
    pub gate: u64,
    pub records: u64,
}

/// What is at a gate, which is at this place: `None` if it is closed; if it is open, the record
/// after it, and the bytes after the record.
pub fn read_gate(bytes: &[u8], at: u64) -> Result<Option<(&[u8], &[u8])>, Damaged>
    ensures found { IfOk result (λ o. IfSome o (λ x. bytes.now ≡ opened plain x.0.now ++ x.1.now)) }
    ensures closed { IfOk result (λ o. IfNone o (IsClosed bytes.now)) }
    ensures damaged { OnErr result (IsUnread bytes.now) }
    ensures place { IfErr result (λ d. d.at ≡ at) }
{
    match bytes {
        [] => Err(Damaged { at }),
        [mark, rest @ ..] => {
            if *mark == CLOSED {
                return Ok(None);
            }
            if *mark != OPEN {
                return Err(Damaged { at });
            }
            match read_part(rest) {
                Some((body, rest)) => Ok(Some((body, rest))),
                None => Err(Damaged { at }),
            }
        }
    }
}

/// Reads records to their end: how many bytes are before the closed gate, and how many records.
fn read_records(bytes: &[u8]) -> Result<AreaEnd, Damaged>
    requires { length bytes.now < 2 ^ 32 }
    ensures ok { IfOk result (λ e. HasRecords bytes.now e) }
    ensures damaged { IfErr result (λ d. StopsAt bytes.now d.at) }
{
    let mut rest = bytes;
    let mut gate = 0;
    let mut records = 0;
    'records: while let Some((_, more)) = read_gate(rest, gate)? {
        gate += (rest.len() - more.len()) as u64;
        records += 1;
        rest = more;
    }
    Ok(AreaEnd { gate, records })
}

/// Reads an area of less than 2^32 bytes to its end.
pub fn read_area(area: &[u8]) -> Result<AreaEnd, Damaged>
    requires { length area.now < 2 ^ 32 }
    ensures ok { IfOk result (IsRead area.now) }
    ensures damaged { IfErr result (λ d. IsDamaged area.now d.at) }
    ensures no_area { OnErr result ((snapshot : List ℕ) (records : List (List ℕ)) → IsArea plain area.now snapshot records → ⊥) }
{
    let Some((_, rest)) = read_part(area) else {
        return Err(Damaged { at: 0 });
    };
    let front = (area.len() - rest.len()) as u64;
    match read_records(rest) {
        Ok(end) => Ok(AreaEnd {
            gate: front + end.gate,
            records: end.records,
        }),
        Err(damaged) => Err(Damaged {
            at: front + damaged.at,
        }),
    }
}
