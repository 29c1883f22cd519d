//! The line of a point that a mesh needs since it is kept, read and put on a page.

ghost use Rattle.std.specs.Prelude.{◌≡◌};
ghost use Rattle.cert_text.specs.NeedLine.{need_text, need_of, need_fields, need_in, need_is};

use crate::page::{Page, PageLine, push_field};
use crate::reading::{FromFields, read_below, side};
use bintree_addr::Point;
use roam_num::push_bytes;
use roam_script::first_field;

impl FromFields for Point {
    ghost read = { need_in };

    ghost of_fields = { need_fields };

    ghost IsOf = { λ _ _. Unit {0} };

    ghost reads = { need_is };

    fn from_fields(bytes: &[u8], n: u32) -> Option<Point> {
        let Some((word, rest)) = first_field(bytes) else {
            return None;
        };
        let Some((x, rest)) = first_field(rest) else {
            return None;
        };
        let Some((y, rest)) = first_field(rest) else {
            return None;
        };
        if first_field(rest).is_some() || word != b"need".as_slice() {
            return None;
        }
        let end = side(n);
        need_of(read_below(x, end), read_below(y, end))
    }
}

impl PageLine for Point {
    ghost text = { need_text };

    fn push(self, page: &mut Page) {
        push_bytes(page, b"need");
        push_field(page, self.x);
        push_field(page, self.y);
    }
}

/// The point of a column and a row, where both are there.
fn need_of(x: Option<u32>, y: Option<u32>) -> Option<Point>
    ensures { result ≡ need_of x y }
{
    let (Some(x), Some(y)) = (x, y) else {
        return None;
    };
    Some(Point { x, y })
}
