//! Lines against lists that are written out by hand.

use form_lines::{Line, last_line, lines_of};
use std::test::Fail;

/// Whether a line has this number and text.
fn is_line(line: &Line, number: u32, text: &str) -> bool {
    line.number() == number && line.text() == text
}

#[test]
fn lines_of_a_text(rt: HostRuntime) -> Result<(), Fail> {
    let text = b"Symbols x,y;\r\n* a remark\nLocal F = (x+y)^2;\nPrint;\n .End";
    let Ok(lines) = lines_of(rt.alloc(), text) else {
        return Err(Fail::from("refused"));
    };
    assert_eq!(rt; last_line(text), 5);
    assert_eq!(rt; lines.len(), 4);
    assert!(rt; is_line(&lines[0], 1, "Symbols x,y;"));
    assert!(rt; is_line(&lines[1], 3, "Local F = (x+y)^2;"));
    assert!(rt; is_line(&lines[3], 5, " .End"));
    Ok(())
}
