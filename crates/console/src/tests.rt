// Lines from memory: what a closure is given of each, and where it stops.
use crate::drive::Stop;
use crate::lines::for_each_line;
use std::io::BufReader;
use std::test::Fail;

// A line of 5,000 bytes comes in several parts, and 4,097 of them are held; the last line has no line feed.
#[test]
fn gives_each_line(rt: HostRuntime) -> Result<(), Fail> {
    let heap = rt.alloc();
    let mut bytes = Vec::from_slice(heap, b"one\n\n")?;
    bytes.resize(5005, b'x')?;
    bytes.extend_from_slice(b"\nlast")?;
    let mut want = Vec::from_slice(heap, b"one||")?;
    want.resize(4102, b'x')?;
    want.extend_from_slice(b"|last|")?;
    let mut input = BufReader::with_capacity(heap, 1000, bytes.as_slice())?;
    let mut line = Vec::new(heap);
    let mut given = Vec::new(heap);
    let done = for_each_line(&mut input, &mut line, |text| {
        given.extend_from_slice(text)?;
        given.push(b'|')?;
        Ok(())
    });
    assert!(rt; done.is_ok());
    assert_eq!(rt; given.as_slice(), want.as_slice());
    Ok(())
}

// What the closure refuses is returned, and the lines after it are left.
#[test]
fn stops_at_an_error(rt: HostRuntime) {
    let mut input: &[u8] = b"one\nstop\ntwo\n";
    let mut line = Vec::new(rt.alloc());
    let done = for_each_line(&mut input, &mut line, |text| {
        if text == b"stop".as_slice() {
            Err(Stop::Cut)
        } else {
            Ok(())
        }
    });
    assert!(rt; matches!(done, Err(Stop::Cut)));
    assert_eq!(rt; line.as_slice(), b"stop".as_slice());
    assert_eq!(rt; input, b"two\n".as_slice());
}
