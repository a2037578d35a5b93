//! Where blocks end and go on.

ghost use Rattle.std.specs.Prelude.{◌≡◌, IfOk, OnOk, slice_index_or};
ghost use Rattle.form_preproc.specs.Links.{AreLinks};
ghost use Rattle.form_preproc.specs.Links as links;

use crate::key::Key;
use crate::source::SourceLine;
use form_calc::{Row, Stack};
use std::alloc::{AllocError, Global};

/// Where the block that is open behind a line goes on and ends: places in the list of lines, its length where it doesn't.
#[derive(Clone, Copy)]
pub struct Link {
    /// The first line at which it ends or a further part of it begins.
    pub closer: usize,
    /// The line at which it ends.
    pub close: usize,
}

/// The links of the blocks that are open, behind one more line before them.
fn take(key: Key, place: usize, link: Link, blocks: &mut Stack<Link>) -> Result<(), AllocError>
    ensures { OnOk result (blocks.new ≡ links.open_before key place link blocks.old) }
{
    if key.is_end() {
        return blocks.push(Link {
            closer: place,
            close: place,
        });
    }
    if key.is_closer() {
        let _ = blocks.pop();
        return blocks.push(Link {
            closer: place,
            close: link.close,
        });
    }
    if key.is_opening() {
        let _ = blocks.pop();
    }
    Ok(())
}

/// The link of the innermost block, or none in a list of so many lines.
fn first_link(blocks: &Stack<Link>, size: usize) -> Link
    ensures { result ≡ slice_index_or blocks.now 0 (links.no_link size) }
{
    match blocks.top() {
        Some(link) => *link,
        None => Link {
            closer: size,
            close: size,
        },
    }
}

/// The links of all lines, from the last one.
pub fn links_of(alloc: Global, lines: &[SourceLine]) -> Result<Row<Link>, AllocError>
    ensures { IfOk result (λ links. AreLinks (λ line. line.key) lines.now links) }
{
    let mut blocks: Stack<Link> = Stack::new(alloc);
    let mut links = Stack::new(alloc);
    let mut place = lines.len();
    while place > 0 {
        place -= 1;
        let link = first_link(&blocks, lines.len());
        links.push(link)?;
        take(lines[place].key(), place, link, &mut blocks)?;
    }
    Ok(links.into_row())
}
