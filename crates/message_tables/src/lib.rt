//! Tables of QMI messages, read from descriptions in the form of libqmi's `data/qmi-service-*.json`.
#![tactic(auto)]

mod byte;
mod comments;
mod copies;
mod definitions;
mod digits;
mod fault;
mod format;
mod laws;
mod members;
mod message;
mod nesting;
mod objects;
mod read;
mod shapes;
mod sizes;
mod tables;
mod tlv;
mod tlvs;

pub use byte::is_byte;
pub use comments::without_comments;
pub use definitions::{Definition, Definitions};
pub use fault::{MemberName, ObjectFault, TableFault};
pub use laws::{forms_are_by_their_members, lines_are_the_text};
pub use members::{objects_in, text_member};
pub use message::Message;
pub use nesting::nests_well;
pub use objects::{Sort, definition_of, message_with, sort_of};
pub use read::{json_value, read_tables};
pub use tables::Tables;
pub use tlv::{TlvShape, TlvShapes};
