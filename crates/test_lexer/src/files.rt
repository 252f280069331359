//! What files give: texts whose first line may be a shebang.

use crate::trees::place_trees;
use proc_macro2::tree::TokenStream;
use rust_map::source_map::SourceMap;
use test_support::Page;

/// The shebang of a text as a file, if it has one, and the place of the first character of each tree at its top and
/// that behind its last one; or the fault of the file.
pub fn file(text: &str, page: &mut Page) {
    let alloc = page.alloc();
    let mut map = SourceMap::new(alloc);
    match TokenStream::from_file(alloc, text, &mut map) {
        Ok((shebang, stream)) => {
            put_shebang(shebang, page);
            place_trees(stream, &map, page);
        }
        Err(fault) => page.show(&fault),
    }
}

fn put_shebang(shebang: Option<&str>, page: &mut Page) {
    match shebang {
        Some(line) => page.quote(line),
        None => page.put("no shebang"),
    }
}
