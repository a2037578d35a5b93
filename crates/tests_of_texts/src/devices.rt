use form_mem::*;
use form_outside::{Gate, Library, LibraryErr, Sink, SinkErr, Store};
use std::alloc::Global;
use std::test::Fail;

/// The answer of a library, through the bound that the product has.
fn fetched<L: Library>(
    library: &mut L,
    alloc: Global,
    name: &str,
    max: u64,
) -> Result<Option<Vec<u8>>, LibraryErr> {
    library.fetch(alloc, name, max)
}

/// The answer of a sink, through the bound that the product has.
fn taken<S: Sink>(sink: &mut S, alloc: Global, piece: &[u8]) -> Result<(), SinkErr> {
    sink.put(alloc, piece)?;
    sink.finish(alloc)
}

/// Whether an answer is this text.
fn is_text(answer: &Result<Option<Vec<u8>>, LibraryErr>, text: &[u8]) -> bool {
    match answer {
        Ok(Some(found)) => found.as_slice() == text,
        _ => false,
    }
}

/// Takes what may be lent to another thread.
fn crosses<T: Send + Sync>(value: &T) {
    let _ = value;
}

#[test]
fn library_answers(rt: HostRuntime) -> Result<(), Fail> {
    let alloc = rt.alloc();
    let mut library = MemLibrary::new(alloc);
    library.insert("first.frm", b"old")?;
    library.insert("other.h", b"")?;
    library.insert("first.frm", b"Symbols x;")?;
    library.fail_at(4)?;
    assert!(rt;
        is_text(
            &fetched(&mut library, alloc, "first.frm", 10),
            b"Symbols x;"
        )
    );
    assert!(rt;
        matches!(
            library.fetch(alloc, "first.frm", 9),
            Err(LibraryErr::TooLong)
        )
    );
    assert!(rt; is_text(&library.fetch(alloc, "other.h", 0), b""));
    assert!(rt; matches!(library.fetch(alloc, "other.h", 0), Err(LibraryErr::Failed)));
    assert!(rt; matches!(library.fetch(alloc, "first", 100), Ok(None)));
    Ok(())
}

#[test]
fn sure_library_answers(rt: HostRuntime) -> Result<(), Fail> {
    let alloc = rt.alloc();
    let mut library = SureLibrary::new(alloc);
    library.insert("first.frm", b".end")?;
    assert!(rt; is_text(&fetched(&mut library, alloc, "first.frm", 4), b".end"));
    assert!(rt;
        matches!(
            library.fetch(alloc, "first.frm", 3),
            Err(LibraryErr::TooLong)
        )
    );
    assert!(rt; matches!(library.fetch(alloc, "", 3), Ok(None)));
    Ok(())
}

#[test]
fn sink_takes(rt: HostRuntime) -> Result<(), Fail> {
    let alloc = rt.alloc();
    let mut sink = MemSink::new(alloc);
    sink.fail_put_at(3)?;
    sink.fail_finish_at(2)?;
    assert!(rt; taken(&mut sink, alloc, b"F = ").is_ok());
    assert!(rt; sink.is_finished());
    assert!(rt; sink.put(alloc, b"x;").is_ok());
    assert!(rt; !sink.is_finished());
    assert!(rt; matches!(sink.put(alloc, b"12345"), Err(SinkErr::Failed)));
    assert!(rt; matches!(sink.finish(alloc), Err(SinkErr::Failed)));
    assert!(rt; !sink.is_finished());
    assert!(rt; sink.finish(alloc).is_ok());
    assert!(rt; sink.is_finished());
    assert!(rt; sink.bytes() == b"F = x;12".as_slice());
    Ok(())
}

#[test]
fn sure_sink_takes(rt: HostRuntime) {
    let alloc = rt.alloc();
    let mut sink = SureSink::new(alloc);
    assert!(rt; !sink.is_finished());
    assert!(rt; sink.put(alloc, b"a").is_ok());
    assert!(rt; taken(&mut sink, alloc, b"bc").is_ok());
    assert!(rt; sink.is_finished());
    assert!(rt; sink.bytes() == b"abc".as_slice());
}

#[test]
fn store_keeps_runs(rt: HostRuntime) -> Result<(), Fail> {
    let alloc = rt.alloc();
    let mut store = MemStore::new(alloc);
    let first = store.create(alloc)?;
    store.append(alloc, first, b"hello")?;
    let second = store.create(alloc)?;
    store.append(alloc, second, b"w")?;
    let mut out = [0; 4];
    let count = store.read(alloc, first, 3, &mut out)?;
    assert_eq!(rt; count, 2);
    assert_eq!(rt; out, *b"lo\0\0");
    store.remove(alloc, first)?;
    let count = store.read(alloc, second, 0, &mut out)?;
    assert_eq!(rt; count, 1);
    assert_eq!(rt; out, *b"wo\0\0");
    Ok(())
}

#[test]
fn objects_cross_threads(rt: HostRuntime) {
    let alloc = rt.alloc();
    let gate = OpenGate;
    gate.enter(7);
    crosses(&gate);
    crosses(&MemLibrary::new(alloc));
    crosses(&MemSink::new(alloc));
    crosses(&MemStore::new(alloc));
}
