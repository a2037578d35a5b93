//! Whole programs over a library and a sink in memory of which one fails, against bytes and statuses worked out by hand.

ghost use Rattle.std.specs.Prelude.{◌≡◌, IfOk};
ghost use Rattle.form_mem.specs.Library.{library_faults};
ghost use Rattle.form_mem.specs.Sink.{sink_faults};

use form_engine::tform;
use form_mem::{MemLibrary, MemSink, OpenGate, fresh_stores};
use std::alloc::{AllocError, Global};
use std::sync::Wait;
use std::test::Fail;
use std::thread::Threads;

const SQUARE: &str = "Symbols x,y;\nLocal F = (x+y)^2;\nPrint;\n.end\n";

const INCLUDES: &str = "#include xy.h\nLocal F = (x+y)^2;\nPrint;\n.end\n";

/// Which device fails, at its first call or its second.
#[derive(Clone, Copy, PartialEq, Eq)]
enum Failing {
    Fetch,
    SecondFetch,
    Put,
}

/// What a call did.
#[derive(Drop)]
struct Answered {
    code: u8,
    bytes: Vec<u8>,
}

/// A library that has the text `p.frm`, and one that declares x and y.
fn library_of(alloc: Global, text: &str, failing: Failing) -> Result<MemLibrary, AllocError>
    ensures { IfOk result (λ library. library_faults library ≡ 0) }
{
    let mut library = MemLibrary::new(alloc);
    library.insert("p.frm", text.as_bytes())?;
    library.insert("xy.h", b"Symbols x,y;\n")?;
    match failing {
        Failing::Fetch => library.fail_at(1)?,
        Failing::SecondFetch => library.fail_at(2)?,
        Failing::Put => {}
    }
    Ok(library)
}

/// A sink that has taken nothing.
fn empty_sink(alloc: Global, failing: Failing) -> Result<MemSink, AllocError>
    ensures { IfOk result (λ sink. sink_faults sink ≡ 0) }
{
    let mut sink = MemSink::new(alloc);
    if failing == Failing::Put {
        sink.fail_put_at(1)?;
    }
    Ok(sink)
}

/// The words of a command line.
fn words_of(alloc: Global, texts: &[&str]) -> Result<Vec<String>, AllocError> {
    let mut words = Vec::new(alloc);
    for text in texts {
        words.push(String::from_str(alloc, text)?)?;
    }
    Ok(words)
}

/// The call with these words over a library that has the text `p.frm`.
fn answer_to<R: Threads + Wait>(
    rt: &R,
    alloc: Global,
    words: &[&str],
    text: &str,
    failing: Failing,
) -> Result<Answered, AllocError> {
    let words = words_of(alloc, words)?;
    let mut library = library_of(alloc, text, failing)?;
    let mut out = empty_sink(alloc, failing)?;
    let mut stores = fresh_stores(alloc, 17)?;
    let status = tform(
        rt,
        alloc,
        &words,
        &mut library,
        &mut out,
        &mut stores,
        &OpenGate,
    );
    let code = status.code();
    drop(status);
    Ok(Answered {
        code,
        bytes: out.bytes().to_vec(alloc)?,
    })
}

#[test]
fn a_failed_fetch_is_a_fault(rt: HostRuntime) -> Result<(), Fail> {
    let alloc = rt.alloc();
    let answered = answer_to(&rt, alloc, &["tform", "p.frm"], SQUARE, Failing::Fetch)?;
    assert!(rt; answered.bytes.is_empty());
    assert_eq!(rt; answered.code, 5);
    Ok(())
}

#[test]
fn a_failed_fetch_of_an_included_text_is_a_fault(rt: HostRuntime) -> Result<(), Fail> {
    let alloc = rt.alloc();
    let answered = answer_to(
        &rt,
        alloc,
        &["tform", "p.frm"],
        INCLUDES,
        Failing::SecondFetch,
    )?;
    assert!(rt; answered.bytes.is_empty());
    assert_eq!(rt; answered.code, 5);
    Ok(())
}

#[test]
fn a_failed_put_is_a_fault_behind_a_front(rt: HostRuntime) -> Result<(), Fail> {
    let alloc = rt.alloc();
    let answered = answer_to(&rt, alloc, &["tform", "p.frm"], SQUARE, Failing::Put)?;
    let printed = b"\n   F =\n      y^2 + 2*x*y + x^2;\n\n".as_slice();
    assert!(rt; printed.starts_with(answered.bytes.as_slice()));
    assert!(rt; answered.bytes.len() < printed.len());
    assert_eq!(rt; answered.code, 6);
    Ok(())
}
