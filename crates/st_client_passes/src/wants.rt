// What an operation asks of a server.
ghost use Rattle.std.specs.Prelude.{◌≡◌, Some};
ghost use Rattle.st_rules.specs.ClientPasses as passes;

use st_base::PageNo;
use st_messages::Body;
use std::marker::Model;

/// The body of a request, whether the operation itself is sent with it, and the file and page from
/// which on it cuts.
#[derive(Drop)]
pub struct Wanted {
    pub body: Body,
    pub own: bool,
    pub cut: Option<(u32, PageNo)>,
}

impl Model for Wanted {
    ghost use Rattle.st_rules.specs.ClientPasses as shown;

    ghost Value = { shown.Wanted };

    ghost view = { λ w. record { body = w.body; own = w.own; cut = w.cut } };
}

/// A request on behalf of an operation that stays unsent.
pub fn on_behalf(body: Body) -> Option<Wanted>
    ensures { result ≡ passes.wanted body }
{
    Some(Wanted {
        body,
        own: false,
        cut: None,
    })
}

/// The operation itself, which cuts no file.
pub fn wanted_itself(body: Body) -> Option<Wanted>
    ensures { result ≡ passes.wanted_itself body }
{
    Some(Wanted {
        body,
        own: true,
        cut: None,
    })
}

/// The operation itself, which cuts a file.
pub fn wanted_cut(body: Body, ino: u32, page: PageNo) -> Option<Wanted>
    ensures { result ≡ passes.wanted_cut body ino page }
{
    Some(Wanted {
        body,
        own: true,
        cut: Some((ino, page)),
    })
}
