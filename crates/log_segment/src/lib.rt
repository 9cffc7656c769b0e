//! One segment of a log on a disk: windows behind a floor, each behind a gate of one byte that is opened when the record
//! lies on the disk. It stands on `log_disk`, `bus_types`, `event_codec` and `bus_stores`. The layers above join segments
//! to a log, and rely on what a crash at any moment leaves (`specs/Segment.antt`).
#![tactic(auto)]

mod ahead;
mod fetch;
mod gate;
mod head;
mod laws;
mod opening;
mod read;
mod record;
mod scan;
mod segment;

pub use laws::a_segment_is_read_in_one_way;
pub use segment::{MAX_USED, Segment, SegmentFault};
