//! Small libraries against the lines that their files come to.

use form_base::Name;
use form_mem::SureLibrary;
use form_preproc::{Expanded, FileError, Handed, expand};
use std::alloc::Global;
use std::test::Fail;

/// A line behind the number of its text and of the line there.
fn shown_line(alloc: Global, line: &Handed) -> Result<String, Fail> {
    let text = str::from_utf8(line.text.as_slice()).unwrap_or("?");
    let number = line.spot.text;
    let place = line.spot.line;
    Ok(format!(in alloc; "{number}:{place} {text}\n")?)
}

/// What is handed on, line by line.
fn shown_lines(alloc: Global, lines: &[Handed]) -> Result<String, Fail> {
    let mut shown = String::new(alloc);
    for line in lines {
        let line = shown_line(alloc, line)?;
        shown.push_str(line.as_str())?;
    }
    Ok(shown)
}

/// The lines of a file, or the text and the line at which it is refused.
fn shown(alloc: Global, answer: Result<Expanded, FileError>) -> Result<String, Fail> {
    match answer {
        Ok(expanded) => shown_lines(alloc, expanded.lines.as_slice()),
        Err(FileError::Refused(_, name, line)) => {
            let name = name.as_str();
            Ok(format!(in alloc; "{name} {line}")?)
        }
        Err(_) => Err(Fail::from("no answer")),
    }
}

/// What a file of these bytes comes to beside a text of another name.
fn expanded(alloc: Global, file: &str, name: &str, text: &str) -> Result<String, Fail> {
    let mut library = SureLibrary::new(alloc);
    library.insert("main.frm", file.as_bytes())?;
    library.insert(name, text.as_bytes())?;
    let main = Name::new(alloc, "main.frm")?;
    shown(alloc, expand(alloc, &mut library, &main))
}

#[test]
fn texts_are_included_and_procedures_called(rt: HostRuntime) -> Result<(), Fail> {
    let file =
        "#include last.h\n#define N \"2\"\n#do i=1,`N'\nLocal F`i' = {`i'+1};\n#enddo\n#call last(7)\n";
    let text =
        "#procedure last(x)\n* commentary\n#if `x' > 6\nPrint `x';\n#endif\n.end\n#endprocedure\n";
    let found = expanded(rt.alloc(), file, "last.h", text)?;
    assert!(rt; found.as_str() == "0:4 Local F1 = 2;\n0:4 Local F2 = 3;\n1:4 Print 7;\n1:6 .end\n");
    Ok(())
}

#[test]
fn braces_of_a_loop_are_a_list_or_calculated(rt: HostRuntime) -> Result<(), Fail> {
    let file =
        "#do a{1}={3}\nx`a1'\n#enddo\n#do n{1+1} = {{1+1},3}\ny`n2'\n#enddo\n#do i={1+1},3\nz`i'\n#enddo\n.end\n";
    let found = expanded(rt.alloc(), file, "none.h", "")?;
    assert!(rt; found.as_str() == "0:2 x3\n0:5 y2\n0:5 y3\n0:8 z2\n0:8 z3\n0:10 .end\n");
    Ok(())
}
