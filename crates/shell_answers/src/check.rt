//! Checks of pages as they are, which change nothing.

use line_words::print::Piece::Text;
use shell_words::tell::{Result, Told, tell, tell_refused};
use shell_words::verdict::tell_verdict;
use sled::{GROUP_IS_OPEN, verify_integrity};
use sled_nodes::Error;
use sled_store::Pages;
use std::alloc::Global;

// Checks pages as an opening does that checks them.
fn check_pages<P: Pages>(alloc: Global, pages: &P) -> sled_nodes::Result<()> {
    if pages.in_group() {
        return Err(Error::Corruption(GROUP_IS_OPEN));
    }
    verify_integrity(alloc, pages)
}

/// Checks pages, and adds the outcome. Those of a closed database are well formed too, but that a group is open.
pub fn tell_check<P: Pages>(
    alloc: Global,
    pages: &P,
    is_closed: bool,
    out: &mut Told,
) -> Result<()> {
    let checked = if is_closed {
        verify_integrity(alloc, pages)
    } else {
        check_pages(alloc, pages)
    };
    match checked {
        Err(error) => tell_verdict(out, error),
        Ok(()) if is_closed => tell_refused(out, Error::Corruption(GROUP_IS_OPEN)),
        Ok(()) => tell(out, &[Text(b"sound\n")]),
    }
}
