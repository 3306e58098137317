// That each call which needs memory or writes can succeed, and what a read that fails leaves, for lack of memory too: no clause says so.
use crate::buffers::Buffers;
use crate::{input, numbers, print, run};
use std::alloc::AllocError;
use std::io;
use std::io::{ErrorKind, Read, Write};
use std::test::Fail;

// A reader that gives some bytes once, and fails in one way from then on.
#[derive(Drop)]
struct Failing {
    given: bool,
    kind: ErrorKind,
}

impl Failing {
    fn new(kind: ErrorKind) -> Failing {
        Failing { given: false, kind }
    }
}

impl Read for Failing {
    fn read(&mut self, buf: &mut [u8]) -> io::Result<usize> {
        if self.given {
            return Err(io::Error::from(self.kind));
        }
        self.given = true;
        b"1 2 x".as_slice().read(buf)
    }
}

#[test]
fn calls_succeed(rt: HostRuntime) -> Result<(), Fail> {
    let mut input = Vec::new(rt.alloc());
    input::read_input(&mut input, b"1 2 x".as_slice(), 4)?;
    assert_eq!(rt; input.as_slice(), b"1 2 ".as_slice());
    let numbers = numbers::collect_numbers(rt.alloc(), b"7 +8 x 9", 4)?;
    assert_eq!(rt; numbers.as_slice(), [7, 8].as_slice());
    let mut sheet = Buffers::filled(rt.alloc(), 5, 20, 5)?;
    sheet.rows[1] = 1;
    let mut out = Vec::new(rt.alloc());
    print::write_sheet(&mut out, &sheet.rows, &sheet.names)?;
    assert_eq!(rt;
        out.as_slice(),
        b"5 1 5 5 5 5 5 5 5 5\n\x05\x05\x05\x05\x05\n".as_slice()
    );
    Ok(())
}

// The numbers that were there before stand behind those that are read.
#[test]
fn numbers_are_read(rt: HostRuntime) -> Result<(), Fail> {
    let mut numbers = [1, 2, 3, 4];
    assert_eq!(rt; numbers::read_numbers(b"7 +8 x 9", &mut numbers), 2);
    assert_eq!(rt; numbers.as_slice(), [7, 8, 3, 4].as_slice());
    assert_eq!(rt; numbers::first(&numbers, 2), [7, 8].as_slice());
    assert_eq!(rt; numbers::first(&numbers, 5), [7, 8, 3, 4].as_slice());
    assert_eq!(rt; numbers::read_numbers(b"1 2 3 4 5", &mut numbers), 4);
    Ok(())
}

// What was read before a read fails is worked on, and what the work wrote before it fails is written.
#[test]
fn work_is_done_on_what_was_read(rt: HostRuntime) -> Result<(), Fail> {
    let mut written = Vec::new(rt.alloc());
    let failing = Failing::new(ErrorKind::TimedOut);
    let done = run::on_input(rt.alloc(), failing, 100, &mut written, |_, out, input| {
        out.write_all(input)
    });
    assert!(rt; done.is_ok());
    assert_eq!(rt; written.as_slice(), b"1 2 x".as_slice());
    let mut written = Vec::new(rt.alloc());
    let done = run::on_input(
        rt.alloc(),
        b"1 2 x".as_slice(),
        4,
        &mut written,
        |_, out, input| {
            out.write_all(input)?;
            Err(io::Error::from(ErrorKind::TimedOut))
        },
    );
    assert!(rt; done.is_err());
    assert_eq!(rt; written.as_slice(), b"1 2 ".as_slice());
    Ok(())
}

// A lack of memory is told. What is cut by it is not worked on.
#[test]
fn lack_of_memory_is_told(rt: HostRuntime) -> Result<(), Fail> {
    let mut written = Vec::new(rt.alloc());
    let failing = Failing::new(ErrorKind::OutOfMemory);
    let done = run::on_input(rt.alloc(), failing, 100, &mut written, |_, out, input| {
        out.write_all(input)
    });
    assert!(rt; done.is_err());
    assert!(rt; written.is_empty());
    assert!(rt; run::pass_over_io(done).is_err());
    assert!(rt; run::pass_over_io(Ok(7)).is_ok());
    for kind in [
        ErrorKind::BrokenPipe,
        ErrorKind::StorageFull,
        ErrorKind::TimedOut,
    ] {
        let done: io::Result<usize> = Err(io::Error::from(kind));
        assert!(rt; run::pass_over_io(done).is_ok());
    }
    let lack: io::Result<usize> = Err(io::Error::from(AllocError));
    assert!(rt; run::pass_over_io(lack).is_err());
    Ok(())
}
