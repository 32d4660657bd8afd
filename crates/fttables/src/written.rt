// What the library's proved functions write: pages, macros, names and widths, as `print!` shows
// them.
use output::{Ascii, first};
use record::layout::Width;
use reference::header::put_macros;
use reference::tables::{put_kind, put_page};
use reference::words::put_width;
use std::fmt;
use text::names::put_field;
use text::text::Sheet;

// No page or list of macros is longer.
const LONGEST: usize = 4096;

// The page of a kind, the macros of a kind, the name of a kind or of a field, or a width.
#[derive(Clone, Copy)]
pub(crate) enum Written {
    Page(u8),
    Macros(u8),
    Kind(u8),
    Field(u8),
    Width(Width),
}

impl Written {
    fn put(self, sheet: &mut Sheet) {
        match self {
            Written::Page(kind) => put_page(sheet, kind),
            Written::Macros(kind) => put_macros(sheet, kind),
            Written::Kind(kind) => put_kind(sheet, kind),
            Written::Field(field) => put_field(sheet, usize::from(field)),
            Written::Width(width) => put_width(sheet, width),
        }
    }
}

impl fmt::Display for Written {
    fn fmt<W: fmt::Write>(&self, f: &mut fmt::Formatter<W>) -> fmt::Result {
        let mut text = [0u8; LONGEST];
        let mut sheet = Sheet::new(&mut text);
        self.put(&mut sheet);
        // by `first`: with `as_bytes` the proof did not close
        let length = sheet.at;
        write!(f, "{}", Ascii(first(&text, length)))
    }
}
