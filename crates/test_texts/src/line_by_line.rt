//! Lines and fields by themselves.
use batch_loader::{Lines, fields};
use cube_model::Fault;
use sample_star::in_pieces;
use std::alloc::Global;
use std::test::Fail;

const TEXT: &[u8] = b"a|b\r\n\nc";

/// Of how many bytes the pieces are in which the text is read, which read fails if one does, and what five calls for a
/// line come to.
type Reading = (usize, u32, &'static [Result<Option<&'static [u8]>, Fault>]);

static READINGS: [Reading; 2] = [
    (
        1,
        0,
        &[
            Ok(Some(b"a|b\r")),
            Ok(Some(b"")),
            Ok(Some(b"c")),
            Ok(None),
            Ok(None),
        ],
    ),
    (
        7,
        2,
        &[
            Ok(Some(b"a|b\r")),
            Ok(Some(b"")),
            Err(Fault::Input),
            Err(Fault::Input),
            Err(Fault::Input),
        ],
    ),
];

/// The first call that comes to something else.
fn first_other(alloc: Global, reading: &Reading) -> Result<Option<usize>, Fault> {
    let (piece, failing, wants) = *reading;
    let reader = in_pieces(TEXT, piece.max(1)).failing_at(failing);
    let mut lines = Lines::new(alloc, reader)?;
    for (place, want) in wants.iter().enumerate() {
        if lines.next() != *want {
            return Ok(Some(place));
        }
    }
    Ok(None)
}

#[test]
fn lines_are_given_in_order(rt: HostRuntime) {
    for (place, reading) in READINGS.iter().enumerate() {
        assert!(rt;
            first_other(rt.alloc(), reading) == Ok(None),
            "reading {place}"
        );
    }
}

/// Lines, and the two fields that they spell.
static SPELLED: [(&[u8], Option<(&[u8], &[u8])>); 8] = [
    (b"a|b", Some((b"a", b"b"))),
    (b"a|b|", Some((b"a", b"b"))),
    (b"a|b\r", Some((b"a", b"b"))),
    (b"a|b|\r", Some((b"a", b"b"))),
    (b"|", Some((b"", b""))),
    (b"a", None),
    (b"a|b|c", None),
    (b"a|b||", None),
];

#[test]
fn fields_are_between_bars(rt: HostRuntime) -> Result<(), Fail> {
    for (line, want) in &SPELLED {
        let found = fields::<2>(line, 4).map(|found| (found.get(0), found.get(1)));
        assert!(rt; found == want.ok_or(Fault::FieldCount { line: 4 }));
    }
    Ok(())
}
