use st_link::{ReaderSource, SafeSink, SafeSource, WriterSink, put_all, read_up_to};
use std::test::Fail;

#[test]
fn bytes_go_through_the_other_ends(rt: HostRuntime) -> Result<(), Fail> {
    let text = Vec::from_slice(rt.alloc(), b"some text")?;
    let read = read_up_to(rt.alloc(), &mut SafeSource::new(text), 100)?;
    put_all(&mut SafeSink, &read)?;
    let mut written = Vec::new(rt.alloc());
    put_all(&mut WriterSink::new(&mut written), &read)?;
    let mut source = ReaderSource::new(written.as_slice());
    let again = read_up_to(rt.alloc(), &mut source, 100)?;
    assert_eq!(rt; again.as_slice(), b"some text".as_slice());
    Ok(())
}
