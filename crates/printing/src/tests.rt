// That each call which needs memory can succeed, as no clause says, on the printing program's specimen.
use crate::{graph_of, write_input, write_tape};
use std::test::Fail;

const TEXT: &[u8] = b"schemaelementnameDtypeT";

const MARKS: [u32; 18] = [1, 0, 0, 6, 2, 2, 6, 7, 13, 4, 17, 1, 18, 4, 22, 1, 3, 0];

const PRINTED: &[u8] =
    b"read 0 3\nlower 0 3\n0 3 2 1 0 0 0 0 0 0\n1 0 0 0 0 0 0 0 0 0\n2 0 1 1 1 0 0 0 0 1\nDT\n";

#[test]
fn calls_succeed(rt: HostRuntime) -> Result<(), Fail> {
    let (made, graph) = graph_of(rt.alloc(), TEXT, &MARKS)?;
    assert!(rt; made.read.is_ok() & made.lowered.is_ok());
    assert_eq!(rt; graph.rows.get(1).copied(), Some(3));
    let mut out = Vec::new(rt.alloc());
    write_tape(&mut out, TEXT, &MARKS)?;
    assert_eq!(rt; out.as_slice(), PRINTED);
    let mut out = Vec::new(rt.alloc());
    write_input(&mut out, b"")?;
    write_input(&mut out, b"\0\0\0\0\0\0\0\0")?;
    assert_eq!(rt; out.as_slice(), b"short\nread 0 0\nlower 12 0\n".as_slice());
    Ok(())
}
