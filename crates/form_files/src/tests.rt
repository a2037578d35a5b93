use crate::file_library::read_all;
use crate::{FileLibrary, OutSink};
use form_outside::{Library, LibraryErr, Sink, SinkErr};
use std::alloc::Global;
use std::io::{Error, ErrorKind, Read, Write};
use std::test::Fail;
use std::{env, fs, io, process};

/// A reader of two bytes at a time, which fails after four.
#[derive(Drop)]
struct FailingReader {
    given: usize,
}

impl Read for FailingReader {
    fn read(&mut self, buf: &mut [u8]) -> io::Result<usize> {
        if self.given > 3 || buf.len() < 2 {
            return Err(Error::from(ErrorKind::Other));
        }
        self.given += 2;
        buf[0] = b'x';
        buf[1] = b';';
        Ok(2)
    }
}

/// A writer that takes three bytes at a time, and fails at its second call.
#[derive(Drop)]
struct FailingWriter<'a> {
    held: &'a mut Vec<u8>,
    calls: u8,
}

impl Write for FailingWriter<'_> {
    fn write(&mut self, buf: &[u8]) -> io::Result<usize> {
        self.calls = self.calls.saturating_add(1);
        if self.calls == 2 {
            return Err(Error::from(ErrorKind::Other));
        }
        let count = buf.len().min(3);
        match self.held.extend_from_slice(&buf[..count]) {
            Ok(()) => Ok(count),
            Err(_) => Err(Error::from(ErrorKind::OutOfMemory)),
        }
    }

    fn flush(&mut self) -> io::Result<()> {
        Ok(())
    }
}

/// The answer of a sink, through the bound that the product has.
fn put_all<S: Sink>(sink: &mut S, alloc: Global, piece: &[u8], times: u8) -> Result<(), SinkErr> {
    for _ in 0..times {
        sink.put(alloc, piece)?;
    }
    sink.finish(alloc)
}

/// Whether an answer is this text.
fn is_text(answer: &Result<Option<Vec<u8>>, LibraryErr>, text: &[u8]) -> bool {
    match answer {
        Ok(Some(found)) => found.as_slice() == text,
        _ => false,
    }
}

#[test]
fn library_reads_files(rt: HostRuntime) -> Result<(), Fail> {
    let alloc = rt.alloc();
    let folder = env::temp_dir(&rt)?;
    let folder = folder
        .as_path()
        .to_str()
        .ok_or("the folder's name is no text")?;
    let number = process::id(rt.process());
    let path = format!(in alloc; "{folder}/form_files_{number}.frm")?;
    fs::write(&rt, path.as_str(), "Symbols x;\n")?;
    let mut library = FileLibrary::new(rt);
    let whole = library.fetch(alloc, path.as_str(), 11);
    let longer = library.fetch(alloc, path.as_str(), 10);
    fs::remove_file(&rt, path.as_str())?;
    assert!(rt; is_text(&whole, b"Symbols x;\n"));
    assert!(rt; matches!(longer, Err(LibraryErr::TooLong)));
    assert!(rt; matches!(library.fetch(alloc, path.as_str(), 11), Ok(None)));
    assert!(rt; matches!(library.fetch(alloc, folder, 1000), Err(LibraryErr::Failed)));
    Ok(())
}

#[test]
fn readers_are_read_whole(rt: HostRuntime) -> Result<(), Fail> {
    let alloc = rt.alloc();
    let bytes = vec![in alloc; 7u8; 20000]?;
    let text = read_all(&mut bytes.as_slice(), alloc, 20000)?;
    assert!(rt; text == bytes);
    let longer = read_all(&mut bytes.as_slice(), alloc, 19999);
    assert!(rt; matches!(longer, Err(LibraryErr::TooLong)));
    let failed = read_all(&mut FailingReader { given: 0 }, alloc, 9);
    assert!(rt; matches!(failed, Err(LibraryErr::Failed)));
    Ok(())
}

#[test]
fn sink_writes_pieces_out(rt: HostRuntime) -> Result<(), Fail> {
    let alloc = rt.alloc();
    let piece = vec![in alloc; 9u8; 30000]?;
    let mut held = Vec::new(alloc);
    let mut sink = OutSink::new(alloc, &mut held);
    assert!(rt; put_all(&mut sink, alloc, piece.as_slice(), 5).is_ok());
    drop(sink);
    assert!(rt; held == vec![in alloc; 9u8; 150000]?);
    Ok(())
}

#[test]
fn sink_fails_and_loses_nothing(rt: HostRuntime) {
    let alloc = rt.alloc();
    let mut held = Vec::new(alloc);
    let mut sink = OutSink::new(
        alloc,
        FailingWriter {
            held: &mut held,
            calls: 0,
        },
    );
    assert!(rt;
        matches!(
            put_all(&mut sink, alloc, b"F = x;", 2),
            Err(SinkErr::Failed)
        )
    );
    assert!(rt; put_all(&mut sink, alloc, b".\n", 1).is_ok());
    drop(sink);
    assert!(rt; held.as_slice() == b"F = x;F = x;.\n".as_slice());
}
