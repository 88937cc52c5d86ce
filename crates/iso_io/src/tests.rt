use super::*;
use iso_types::Items;
use std::test::Fail;

const TEXT: &[u8] = b"DB2ISO 1\nTABLE T (N INTEGER)\n";

// Whether a script is read from the source, and is the text.
fn gives<S: Source>(rt: &impl AllocGlobal, source: &mut S, text: &[u8]) -> bool {
    match read_script(rt.alloc(), source) {
        Ok(read) => read.as_slice() == text,
        Err(_) => false,
    }
}

fn plain_gives(rt: &impl AllocGlobal, text: &[u8], most: usize) -> Result<bool, Fail> {
    let bytes = Items::from_vec(text.to_vec(rt.alloc())?);
    let mut source = SourcePlain::new(bytes, most.max(1));
    Ok(gives(rt, &mut source, text))
}

fn source(rt: &impl AllocGlobal, most: usize, fails: &[bool]) -> Result<SourceMemory, Fail> {
    let bytes = Items::from_vec(TEXT.to_vec(rt.alloc())?);
    let fails = Items::from_vec(fails.to_vec(rt.alloc())?);
    Ok(SourceMemory::new(bytes, most.max(1), fails))
}

fn sink(rt: &impl AllocGlobal, most: usize, fails: &[bool]) -> Result<SinkMemory, Fail> {
    let fails = Items::from_vec(fails.to_vec(rt.alloc())?);
    Ok(SinkMemory::new(rt.alloc(), most.max(1), fails))
}

// Whether the source fails once, and then gives this rest.
fn fails_then_gives(rt: &impl AllocGlobal, mut source: SourceMemory, rest: &[u8]) -> bool {
    let read = read_script(rt.alloc(), &mut source);
    matches!(&read, Err(ReadFault::ReadFault)) && gives(rt, &mut source, rest)
}

// What the sink answers to the text, and whether it then holds these bytes.
fn takes(mut sink: SinkMemory, text: &[u8], held: &[u8]) -> (Result<(), WriteFault>, bool) {
    let answer = write_whole(&mut sink, text);
    (answer, sink.held() == held)
}

#[test]
fn pieces_give_the_same_bytes(rt: HostRuntime) -> Result<(), Fail> {
    for most in [1, 2, 3, 7, 4096] {
        assert!(rt; plain_gives(&rt, TEXT, most)?, "{most} bytes a call");
        let mut read = source(&rt, most, &[])?;
        assert!(rt; gives(&rt, &mut read, TEXT), "{most} bytes a call");
        let held = takes(sink(&rt, most, &[])?, TEXT, TEXT);
        assert_eq!(rt; held, (Ok(()), true), "{most} bytes a call");
    }
    assert_eq!(rt; write_whole(&mut SinkPlain::new(), TEXT), Ok(()));
    Ok(())
}

#[test]
fn streams_fail_at_the_listed_calls(rt: HostRuntime) -> Result<(), Fail> {
    let first = source(&rt, 4096, &[true])?;
    assert!(rt; fails_then_gives(&rt, first, TEXT));
    let second = source(&rt, 10, &[false, true])?;
    assert!(rt; fails_then_gives(&rt, second, &TEXT[10..]));
    let none = takes(sink(&rt, 4096, &[true])?, TEXT, b"");
    assert_eq!(rt; none, (Err(WriteFault), true));
    for k in 1..TEXT.len() {
        let part = takes(sink(&rt, k, &[false, true])?, TEXT, &TEXT[..k]);
        assert_eq!(rt; part, (Err(WriteFault), true), "after {k} bytes");
    }
    Ok(())
}

#[test]
fn the_longest_script_and_one_byte_more(rt: HostRuntime) -> Result<(), Fail> {
    let longest = vec![in rt.alloc(); b'-'; 1_048_576]?;
    assert!(rt; plain_gives(&rt, &longest, 1_000_000)?);
    let longer = vec![in rt.alloc(); b'-'; 1_048_577]?;
    let read = read_script(
        rt.alloc(),
        &mut SourcePlain::new(Items::from_vec(longer), 9),
    );
    assert!(rt; matches!(&read, Err(ReadFault::TooLong)));
    Ok(())
}
