use file_io::{Complain, Files, READ_ROOM, Side, StdFiles};
use kit_io::Failed;
use std::cell::Cell;
use std::fs;

// What is done with files stands in functions over any files: a check takes far longer over real ones.

/// Opens a file for writing, and writes these bytes to its start.
fn write<F: Files>(files: &mut F, bytes: &[u8]) -> Result<usize, Failed> {
    files.open("f.bin", Side::Write)?;
    files.write(bytes)
}

/// Whether a file has these four bytes, and then ends.
fn has<F: Files>(files: &mut F, wanted: [u8; 4]) -> bool {
    let mut buffer = [0; READ_ROOM];
    files.open("f.bin", Side::Read).is_ok()
        && files.read(&mut buffer) == Ok(4)
        && buffer.starts_with(&wanted)
        && files.read(&mut buffer) == Ok(0)
}

/// A file that isn't there is neither read nor made, and that is why.
fn misses<F: Complain>(files: &mut F) -> bool {
    files.open("f.bin", Side::Read).is_err()
        && write(files, b"new").is_err()
        && files.words() == "No such file or directory"
}

/// None is open any more once it was closed.
fn closes<F: Files>(files: &mut F) -> bool {
    files.close();
    files.write(b"w").is_err()
}

#[test]
fn a_file_of_the_file_system_is_written_and_read(rt: HostRuntime) {
    let no_link = Cell::new(-1);
    let mut files = StdFiles::new(&rt, rt.alloc(), &no_link);
    assert!(rt; misses(&mut files));
    fs::write(&rt, "f.bin", "text").expect(&rt, "a new file");
    assert!(rt; write(&mut files, b"new") == Ok(3));
    assert!(rt; has(&mut files, *b"newt"));
    assert!(rt; closes(&mut files));
    fs::remove_file(&rt, "f.bin").expect(&rt, "a file");
}
