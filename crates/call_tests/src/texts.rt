use kit_bytes::{Text, Utf16Fault, text_from_utf16, utf16_from_text};
use std::alloc::Global;

/// Whether these bytes spell this text in UTF-16LE, read and written.
fn spell(alloc: Global, bytes: &[u8], spelled: &str) -> bool {
    match text_from_utf16(alloc, bytes) {
        Ok(text) => text.as_str() == spelled && writes(alloc, &text, bytes),
        Err(_) => false,
    }
}

fn writes(alloc: Global, text: &Text, bytes: &[u8]) -> bool {
    match utf16_from_text(alloc, text) {
        Ok(octets) => octets.as_slice() == bytes,
        Err(_) => false,
    }
}

#[test]
fn texts_are_read_and_written(rt: HostRuntime) {
    let rows: [(&[u8], &str); 5] = [
        (&[], ""),
        (&[0x41, 0x00, 0xAC, 0x20], "A€"),
        (&[0xFF, 0xD7, 0x00, 0xE0], "\u{D7FF}\u{E000}"),
        (&[0x00, 0xD8, 0x00, 0xDC, 0xFF, 0xFF], "\u{10000}\u{FFFF}"),
        (
            &[0x3D, 0xD8, 0x00, 0xDE, 0xFF, 0xDB, 0xFF, 0xDF],
            "😀\u{10FFFF}",
        ),
    ];
    for (bytes, spelled) in rows {
        assert!(rt; spell(rt.alloc(), bytes, spelled), "{spelled}");
    }
}

/// Whether these bytes spell no text, and break off at this place.
fn break_at(alloc: Global, bytes: &[u8], place: usize) -> bool {
    match text_from_utf16(alloc, bytes) {
        Ok(_) => false,
        Err(fault) => fault == Utf16Fault::Lone { place },
    }
}

#[test]
fn bytes_that_spell_no_text_are_refused(rt: HostRuntime) {
    let rows: [(&[u8], usize); 8] = [
        (&[0x00, 0xD8, 0x41], 0),
        (&[0x41, 0x00, 0x41], 2),
        (&[0x41], 0),
        (&[0x41, 0x00, 0xFF, 0xDB], 2),
        (&[0x41, 0x00, 0x00, 0xDC, 0x41], 2),
        (&[0x00, 0xD8, 0x00, 0xD8, 0x00, 0xDC], 0),
        (&[0x00, 0xD8, 0x00, 0xE0], 0),
        (&[0x3D, 0xD8, 0x00, 0xDE, 0x00], 4),
    ];
    for (bytes, place) in rows {
        assert!(rt; break_at(rt.alloc(), bytes, place), "{bytes:?}");
    }
}
