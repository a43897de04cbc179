ghost use Rattle.std.specs.Prelude.{◌≡◌};
ghost use Rattle.st_model.specs.LogParts as latest;

use st_base::{ClientId, FileId, PageNo};

/// A page of a file and a client, by plain numbers: a key of an index. Cuts have client 0.
#[derive(Clone, Copy, Debug, PartialEq, Eq, Hash)]
pub struct ClientPage {
    pub client: u16,
    pub server: u16,
    pub ino: u32,
    pub page: u32,
}

/// Returns the key of a client and a page of a file.
pub(crate) fn client_page(client: ClientId, file: FileId, page: PageNo) -> ClientPage
    ensures { result ≡ latest.client_page client file page }
{
    ClientPage {
        client: client.0,
        server: file.server.0,
        ino: file.ino,
        page: page.0,
    }
}
