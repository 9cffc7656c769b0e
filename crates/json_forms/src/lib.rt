//! JSON objects of numbers and plain texts: the one compact text of each, and the law that what is written is read
//! (`specs/`). It stands on `serde_json` and has no code to run. The layers above make the forms of their own marks by its
//! lemmas.
#![tactic(auto)]

mod rows;

pub use rows::worked_texts;
