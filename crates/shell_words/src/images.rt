//! Images of pages, which lines note page by page.

use crate::image::{Image, entry_of, page_of};
use crate::tell::{Result, Told, tell};
use crate::words::words_of;
use line_words::input::Stopped;
use line_words::print::Piece::Text;
use line_words::words::first_word;
use sled_nodes::{IVec, Node, Pid};
use sled_pages::MemPages;
use sled_store::Pages;
use std::alloc::Global;

/// The pages and roots that lines noted since the last image.
#[derive(Drop)]
pub struct Noted {
    pages: Vec<(Pid, Node)>,
    roots: Vec<(IVec, Pid)>,
}

impl Noted {
    /// Nothing so far.
    pub fn nothing(alloc: Global) -> Noted {
        Noted {
            pages: Vec::new(alloc),
            roots: Vec::new(alloc),
        }
    }

    /// Notes the page that the words behind a line's own spell, and adds that it did.
    pub fn note_page(&mut self, alloc: Global, words: &[u8], out: &mut Told) -> Result<()> {
        let words = words_of(alloc, Some(words))?;
        let page = page_of(alloc, words.as_slice());
        drop(words);
        self.pages.push(page?)?;
        tell(out, &[Text(b"noted\n")])
    }

    /// Notes the root that the words behind a line's own spell, and adds that it did.
    pub fn note_root(&mut self, alloc: Global, words: &[u8], out: &mut Told) -> Result<()> {
        let (name, Some(pid)) = first_word(words) else {
            return Err(Stopped);
        };
        self.roots.push(entry_of(alloc, name, pid)?)?;
        tell(out, &[Text(b"noted\n")])
    }

    /// A store of what was noted, which is forgotten.
    pub fn make(&mut self, alloc: Global, image: Image, mark: u64) -> Result<MemPages> {
        let pages = std::mem::replace(&mut self.pages, Vec::new(alloc));
        let roots = std::mem::replace(&mut self.roots, Vec::new(alloc));
        let mark = if let Image::Mark = image { mark } else { 0 };
        let mut made = MemPages::from_image(alloc, pages, roots, mark)?;
        if let Image::Group = image
            && !made.in_group()
        {
            let done = made.begin_group();
            return pages_after(made, done);
        }
        Ok(made)
    }
}

/// The pages to which this was done, unless it was refused.
pub fn pages_after(pages: MemPages, done: sled_nodes::Result<()>) -> Result<MemPages> {
    match done {
        Ok(()) => Ok(pages),
        Err(error) => {
            drop(error);
            drop(pages);
            Err(Stopped)
        }
    }
}
