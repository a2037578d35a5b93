ghost use Rattle.std.specs.Prelude.{◌≡◌, ◌≢◌, ◌<◌, ◌≤◌, None, Ok, Err, IfOk, IfErr, IfSome, IsSomeAnd, length};
ghost use Rattle.std.specs.IoError.{error_kind};
ghost use Rattle.form_outside.specs.Faults.{HasRisen};

use form_outside::{Library, LibraryErr};
use std::alloc::Global;
use std::fs::Files;
use std::io::{ErrorKind, Read};
use std::{fs, io};

/// The most bytes that are read at once.
const PIECE: usize = 8192;

/// The files, each under its path.
#[derive(Drop)]
pub struct FileLibrary<R: Files> {
    files: R,
    faults: u64,
}

impl<R: Files> FileLibrary<R> {
    ghost use Rattle.form_files.specs.FileLibrary.{library_faults};

    pub fn new(files: R) -> Self
        ensures { library_faults result ≡ 0 }
    {
        FileLibrary { files, faults: 0 }
    }
}

impl<R: Files> Library for FileLibrary<R> {
    ghost use Rattle.form_files.specs.FileLibrary.{library_faults};

    // No clause can say what a file holds.
    ghost texts = { λ _. None };

    ghost faults = { library_faults };

    /// None where there is no file at the path. A folder, and a file that can't be opened or read, is a fault.
    fn fetch(&mut self, alloc: Global, name: &str, max: u64) -> Result<Option<Vec<u8>>, LibraryErr>
        ensures within { IfOk result (λ found. IfSome found (λ text. length text.items ≤ max)) }
        ensures failed { result ≡ Err LibraryErr.Failed → HasRisen (library_faults self.old) (library_faults self.new) }
        ensures never_falls { library_faults self.old ≤ library_faults self.new }
        ensures not_risen { result ≢ Err LibraryErr.Failed → library_faults self.new ≡ library_faults self.old }
    {
        let answer = read_file(&self.files, alloc, name, max);
        if matches!(&answer, Err(LibraryErr::Failed)) {
            self.faults = self.faults.saturating_add(1);
        }
        answer
    }
}

/// The bytes of the file at a path: none where there is no such file, and `TooLong` where it has more than `max`.
fn read_file<R: Files>(
    files: &R,
    alloc: Global,
    path: &str,
    max: u64,
) -> Result<Option<Vec<u8>>, LibraryErr>
    ensures { IfOk result (λ found. IfSome found (λ text. length text.items ≤ max)) }
{
    read_opened(fs::open(files, path), alloc, max)
}

/// The bytes of what opening a file gave: none where there is no file, and a fault where it can't be opened.
fn read_opened<F: Read + Drop>(
    opened: io::Result<F>,
    alloc: Global,
    max: u64,
) -> Result<Option<Vec<u8>>, LibraryErr>
    ensures missing { IfErr opened (λ error. error_kind error ≡ ErrorKind.NotFound → result ≡ Ok None) }
    ensures unopened { IfErr opened (λ error. error_kind error ≢ ErrorKind.NotFound → result
        ≡ Err LibraryErr.Failed) }
    ensures whole { IfOk opened (λ file. IfOk result (λ found. IsSomeAnd found (λ text.
        IfSome (F.remaining file) (λ bytes. text.items ≡ bytes)))) }
    ensures too_long { IfOk opened (λ file. result ≡ Err LibraryErr.TooLong →
        IfSome (F.remaining file) (λ bytes. max < length bytes)) }
    ensures within { IfOk result (λ found. IfSome found (λ text. length text.items ≤ max)) }
{
    match opened {
        Ok(mut file) => Ok(Some(read_all(&mut file, alloc, max)?)),
        Err(error) if error.kind() == ErrorKind::NotFound => Ok(None),
        Err(_) => Err(LibraryErr::Failed),
    }
}

/// All that a reader has left: `TooLong` where that is more than `max` bytes, of which it takes one more at most.
pub fn read_all<F: Read>(reader: &mut F, alloc: Global, max: u64) -> Result<Vec<u8>, LibraryErr>
    ensures within { IfOk result (λ text. length text.items ≤ max) }
    ensures whole { IfOk result (λ text. IfSome (F.remaining reader.old) (λ bytes. text.items ≡ bytes)) }
    ensures too_long { result ≡ Err LibraryErr.TooLong →
        IfSome (F.remaining reader.old) (λ bytes. max < length bytes) }
{
    let mut text = Vec::new(alloc);
    let mut piece = [0; PIECE];
    'pieces: loop {
        let room = (max - text.len() as u64).min(PIECE as u64 - 1) as usize + 1;
        let Ok(count) = reader.read(&mut piece[..room]) else {
            return Err(LibraryErr::Failed);
        };
        if count == 0 {
            return Ok(text);
        }
        if count as u64 > max - text.len() as u64 {
            return Err(LibraryErr::TooLong);
        }
        text.extend_from_slice(&piece[..count])?;
    }
}
