// Bodies of messages: which replies are replies to a request, and the file and the page of a
// request.
ghost use Rattle.std.specs.Prelude.{◌≡◌};
ghost use Rattle.st_rules.specs.ClientReplies as replies;
ghost use Rattle.st_rules.specs.ClientState as client;

use st_base::PageNo;
use st_messages::{Body, NameOp};

/// Whether a lock of the file is requested.
fn acquires(ino: u32, body: &Body) -> bool
    ensures { result ≡ client.acquires ino body.now }
{
    match body {
        Body::Acquire { ino: i, .. } => *i == ino,
        _ => false,
    }
}

/// Whether it is a reassertion.
pub fn reasserts(body: &Body) -> bool
    ensures { result ≡ client.reasserts body.now }
{
    match body {
        Body::Reassert(_) => true,
        _ => false,
    }
}

/// Whether it is a refusal.
pub fn is_refusal(body: &Body) -> bool
    ensures { result ≡ client.is_refusal body.now }
{
    match body {
        Body::Nack { .. } => true,
        _ => false,
    }
}

/// Whether it is a cut or a request to remove.
pub fn asks_cut_or_remove(body: &Body) -> bool
    ensures { result ≡ client.asks_cut_or_remove body.now }
{
    match body {
        Body::Cut { .. } => true,
        Body::Name(op) => match op {
            NameOp::Remove { .. } => true,
            _ => false,
        },
        _ => false,
    }
}

/// Whether this reply is one to a request with that body.
pub fn fits(reply: &Body, asked: &Body) -> bool
    ensures { result ≡ client.fits reply.now asked.now }
{
    match reply {
        Body::Nack { .. } => true,
        Body::Ack => match asked {
            Body::KeepAlive => true,
            Body::Released { .. } => true,
            Body::Cut { .. } => true,
            _ => false,
        },
        Body::Granted { ino, .. } => acquires(*ino, asked),
        Body::Queued { ino, .. } => acquires(*ino, asked),
        Body::Extents { ino, .. } => match asked {
            Body::Map { ino: i, .. } => *i == *ino,
            Body::Allocate { ino: i, .. } => *i == *ino,
            _ => false,
        },
        Body::Named(_) => match asked {
            Body::Name(_) => true,
            _ => false,
        },
        Body::Reasserted => reasserts(asked),
        _ => false,
    }
}

/// The file of a request: its inode, or the one that is removed.
pub fn file_asked(cutting: Option<u32>, body: &Body) -> Option<u32>
    ensures { result ≡ client.file_asked cutting body.now }
{
    match body {
        Body::Acquire { ino, .. } => Some(*ino),
        Body::Released { ino, .. } => Some(*ino),
        Body::Map { ino, .. } => Some(*ino),
        Body::Allocate { ino, .. } => Some(*ino),
        Body::Cut { ino, .. } => Some(*ino),
        Body::Name(_) => cutting,
        _ => None,
    }
}

/// The page of a request for a place or a block.
pub fn page_asked(body: &Body) -> Option<PageNo>
    ensures { result ≡ client.page_asked body.now }
{
    match body {
        Body::Map { page, .. } => Some(*page),
        Body::Allocate { page, .. } => Some(*page),
        _ => None,
    }
}
