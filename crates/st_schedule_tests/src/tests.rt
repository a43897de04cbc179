use st_base::{ClientId, FileId, NodeId, PageBytes, PageNo, ServerId};
use st_messages::{Ask, Event};
use st_schedule::print;
use std::test::Fail;

#[test]
fn an_event_is_printed(rt: HostRuntime) -> Result<(), Fail> {
    let alloc = rt.alloc();
    let file = FileId {
        server: ServerId(1),
        ino: 2,
    };
    let write = Event::App {
        client: ClientId(1),
        ask: Ask::Write(file, PageNo(3), PageBytes::filled(7)),
    };
    assert_eq!(rt;
        print(alloc, &write)?.as_slice(),
        b"app c1 write 1:2 3 7".as_slice()
    );
    let tick = Event::Tick(NodeId::Server(ServerId(1)));
    assert_eq!(rt; print(alloc, &tick)?.as_slice(), b"tick s1".as_slice());
    Ok(())
}
