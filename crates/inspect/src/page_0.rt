// The inspection of page 0: the kind's number, the limits of the shape, rule 1.
ghost use Rattle.std.specs.Prelude.{◌≡◌, drop, IfOk, slice_index};
ghost use Rattle.layout.specs.Inspection.{header_on};
ghost use Rattle.records.specs.Kind.{record_width};
ghost use Rattle.inspect.specs.Page0.{numbers_in, header_found, inspect_header};

use crate::rules::all_zero;
use layout::{Header, HeaderNumbers, OpenFault, PageFault, Rule};
use records::RecordKind;
use shape::{Shape, ShapeNumbers};
use stores::Page;

// Page 0 breaks rule 1.
const BAD_NUMBERS: OpenFault = OpenFault::Page(PageFault::Layout {
    page: 0,
    rule: Rule::HeaderNumbers,
});

// Page 0 taken apart: its numbers, not tested yet, and the bytes behind them.
#[derive(Clone, Copy)]
pub(crate) struct HeaderParts<'a> {
    pub kind: u8,
    pub shape: ShapeNumbers,
    pub numbers: HeaderNumbers,
    pub rest: &'a [u8],
}

pub(crate) fn header_parts<'a>(page: &'a Page) -> HeaderParts<'a>
    ensures kind { result.kind ≡ slice_index page.now 0 }
    ensures numbers { numbers_in result ≡ header_on page.now }
    ensures rest { result.rest.now ≡ drop 14 page.now }
{
    let bytes: &[u8] = page;
    let [
        kind,
        fanout,
        c1,
        c0,
        per_page,
        levels,
        u1,
        u0,
        r1,
        r0,
        n3,
        n2,
        n1,
        n0,
        rest @ ..,
    ] = bytes
    else {
        return unreachable();
    };
    HeaderParts {
        kind: *kind,
        shape: ShapeNumbers {
            fanout: (*fanout).into(),
            capacity: u16::from_be_bytes([*c1, *c0]).into(),
            per_page: (*per_page).into(),
        },
        numbers: HeaderNumbers {
            levels: *levels,
            used: u16::from_be_bytes([*u1, *u0]),
            root: u16::from_be_bytes([*r1, *r0]),
            changes: u32::from_be_bytes([*n3, *n2, *n1, *n0]),
        },
        rest,
    }
}

// Inspects page 0, and tells its numbers.
pub(crate) fn inspect_header<K: RecordKind>(kind: &K, page: &Page) -> Result<Header, OpenFault>
    ensures width { IfOk result (λ h. h.shape.record_width ≡ record_width (K.model kind.now)) }
    ensures answer { header_found result ≡ inspect_header (K.model kind.now) page.now }
{
    let parts = header_parts(page);
    if parts.kind != kind.number() {
        return Err(OpenFault::OtherKind);
    }
    let shape = Shape::new(parts.shape, kind.record_width()).ok_or(OpenFault::ShapeLimits)?;
    let header = Header::new(shape, parts.numbers).ok_or(BAD_NUMBERS)?;
    Rule::HeaderNumbers.keep(all_zero(parts.rest), 0)?;
    Ok(header)
}
