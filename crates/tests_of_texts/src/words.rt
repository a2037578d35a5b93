//! Command lines, against what they ask for, written out by hand.

use form_base::Settings;
use form_words::read_words;
use std::alloc::{AllocError, Global};
use std::test::Fail;

fn owned(alloc: Global, texts: &[&str]) -> Result<Vec<String>, AllocError> {
    let mut words = Vec::new(alloc);
    for text in texts {
        words.push(String::from_str(alloc, text)?)?;
    }
    Ok(words)
}

#[test]
fn four_workers(rt: HostRuntime) -> Result<(), Fail> {
    let words = owned(rt.alloc(), &["tform", "-w", "4", "p.frm"])?;
    let settings = Settings {
        workers: 4,
        hold: 110_000,
        ..Settings::default()
    };
    let job = read_words(rt.alloc(), &words);
    assert!(rt; job.is_ok_and(|job| job.settings == settings && job.file.as_str() == "p.frm"));
    Ok(())
}
