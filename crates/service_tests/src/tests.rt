// Readers and writers that fail or are slow.
use service::{ServeFault, Stream, serve};
use sheets::answer;
use std::alloc::{AllocError, Global};
use std::io;
use std::io::{Read, Write};
use std::test::Fail;

// The most bytes that are read of a sheet.
const MOST: usize = 32_769;

// A reader and a writer that always fails.
#[derive(Clone, Copy)]
struct Broken;

impl Read for Broken {
    fn read(&mut self, _buf: &mut [u8]) -> io::Result<usize> {
        Err(io::Error::other("broken"))
    }
}

impl Write for Broken {
    fn write(&mut self, _buf: &[u8]) -> io::Result<usize> {
        Err(io::Error::other("broken"))
    }

    fn flush(&mut self) -> io::Result<()> {
        Ok(())
    }
}

// A reader that gives its bytes one at a time.
#[derive(Drop)]
struct Drip<'a> {
    rest: &'a [u8],
}

impl Read for Drip<'_> {
    fn read(&mut self, buf: &mut [u8]) -> io::Result<usize> {
        let ([place, ..], [first, rest @ ..]) = (buf, self.rest) else {
            return Ok(0);
        };
        *place = *first;
        self.rest = rest;
        Ok(1)
    }
}

// `count` bytes, of which each two are an event; at an odd count the last is cut.
fn events(heap: Global, count: usize) -> Result<Vec<u8>, AllocError> {
    b"OP".iter().copied().cycle().take(count).collect(heap)
}

// What is told of an outcome.
fn told(heap: Global, served: Result<(), ServeFault>) -> Result<String, AllocError> {
    match served {
        Ok(()) => String::from_str(heap, "written"),
        Err(fault) => fault.to_string(heap),
    }
}

#[test]
fn tells_a_failed_read(rt: HostRuntime) -> Result<(), Fail> {
    let heap = rt.alloc();
    let mut out = Vec::new(heap);
    let served = serve(heap, Stream(Broken), &mut out);
    assert!(rt; matches!(served, Err(ServeFault::Reading(_))));
    assert!(rt; told(heap, served)?.as_str() == "cannot read the sheet: broken");
    assert!(rt; out.is_empty());
    Ok(())
}

#[test]
fn tells_a_failed_write(rt: HostRuntime) -> Result<(), Fail> {
    let heap = rt.alloc();
    let sheet: &[u8] = b"OP";
    let served = serve(heap, sheet, &mut Stream(Broken));
    assert!(rt; matches!(served, Err(ServeFault::Writing(_))));
    assert!(rt; told(heap, served)?.as_str() == "cannot write the lines: broken");
    Ok(())
}

#[test]
fn waits_for_slow_bytes(rt: HostRuntime) -> Result<(), Fail> {
    let heap = rt.alloc();
    let all = events(heap, MOST)?;
    let mut out = Stream(Vec::new(heap));
    serve(heap, Stream(Drip { rest: &all }), &mut out)?;
    let text = answer(heap, &all)?;
    assert!(rt; out.0.as_slice() == text.as_bytes());
    Ok(())
}

#[test]
fn leaves_what_is_too_long(rt: HostRuntime) -> Result<(), Fail> {
    let heap = rt.alloc();
    let all = events(heap, 40_000)?;
    let mut drip = Drip { rest: &all };
    let mut out = Vec::new(heap);
    serve(heap, Stream(&mut drip), &mut out)?;
    assert_eq!(rt; drip.rest.len(), 40_000 - MOST);
    let text = answer(heap, &all)?;
    assert!(rt; out.as_slice() == text.as_bytes());
    Ok(())
}
