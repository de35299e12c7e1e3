//! Files: the trait, some in memory, and those of the file system; and the reading of a whole file.
#![tactic(auto)]

mod complain;
mod files;
mod memory;
mod reading;
mod standard;

pub use complain::Complain;
pub use files::{Files, READ_ROOM, Side};
pub use memory::{FileAnswer, Made, MemFiles};
pub use reading::{FILE_LIMIT, FileFault, read_file};
pub use standard::StdFiles;
