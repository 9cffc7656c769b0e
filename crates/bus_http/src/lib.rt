//! The exchange of asks and replies over HTTP/1.1: requests read from a source, answers and refusals written to a sink, the same from
//! the side of a client, and `serve`, which answers the requests of a connection by the replies of a `Service`; what writes its
//! answers itself is served by the same parts, `read_request`, `send_head`, `send` and `decline`. It stands on `bus_io`, `bus_wire`,
//! `partition_filter` and the kit's `httparse`, `form_urlencoded` and `itoa`. The layers above rely on which ask the first request
//! of some bytes is, and on the talk that a served connection was.
#![tactic(auto)]

mod answer;
mod asking;
mod coming;
mod ending;
mod fault;
mod head;
mod inbox;
mod query;
mod receiving;
mod reply;
mod request;
mod route;
mod sending;
mod service;
mod serving;

pub use answer::AnswerFault;
pub use asking::{AskFault, write_ask};
pub use fault::RequestFault;
pub use inbox::Inbox;
pub use receiving::read_answer;
pub use reply::{Refused, write_refusal, write_reply_head};
pub use request::{Request, read_request};
pub use route::Side;
pub use sending::{send, send_head, send_reply};
pub use service::{ServeEnd, Service, Unanswered};
pub use serving::{MAX_ANSWERS, decline, serve};
