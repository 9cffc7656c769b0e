//! A shared ring: one feeder publishes a timeline's windows, and many passes read them, in any threads. It stands on the
//! cells of `ring_cells` and on the kit's `atomic_table`, whose two words say how many windows were evicted and published.
//! The layers above make a ring by `make_ring`; contracts see numbers of windows, which ring each part belongs to, and the
//! windows that a pass opens.
#![tactic(auto)]

mod claim;
mod claims;
mod cutting;
mod feeder;
mod first;
mod four;
mod laws;
mod make;
mod numbers;
mod opened;
mod part;
mod pass;
mod placed;
mod plays;
mod range;
mod ring;
mod sizes;
mod steps;
mod stock;
mod words;

pub use feeder::Feeder;
pub use laws::{a_range_lends_its_windows, a_ring_answers_by_positions};
pub use make::make_ring;
pub use numbers::Numbers;
pub use opened::Opened;
pub use part::Part;
pub use pass::{Note, Pass, Passes};
pub use range::Range;
pub use ring::Ring;
pub use words::Limits;
