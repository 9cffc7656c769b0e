//! What every part of the bus speaks of: rows and their changes, windows of changes, and the list of windows
//! that a source committed, with the definitions that contracts cite (`specs/`). It stands on no crate of the
//! bus. The layers above make windows through `Window::new` and `Window::cut` alone, so each is within its limits.
#![tactic(auto)]

mod accepts;
mod change;
mod changes;
mod count;
mod fault;
mod fnv;
mod laws;
mod limits;
mod payload;
mod plan;
mod row;
mod text;
mod timeline;
mod window;

pub use accepts::{Accepts, Everything};
pub use change::{Change, Key, RowName};
pub use changes::Changes;
pub use count::Count;
pub use fault::{Failed, NoMemory};
pub use fnv::fnv1a;
pub use laws::{
    a_relay_stands_for_its_timeline, a_reply_is_the_longest_run, hashes_of_short_texts,
    table_holds_last_puts, texts_of_short_lists, the_floor_is_the_least_place_with_room,
    the_floor_is_where_windows_were_evicted, the_limits_of_windows,
};
pub use limits::{MAX_CHANGES, MAX_PAYLOAD, MAX_SCN, MAX_WINDOW};
pub use payload::{Payload, PayloadFault};
pub use plan::Plan;
pub use row::{Cursor, MarkText, Row, Rows};
pub use text::{cursor_text, cut_text, read_cursor, read_number};
pub use timeline::{Timeline, Untold};
pub use window::{Window, WindowFault, copy_changes};
