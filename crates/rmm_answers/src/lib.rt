//! The answers of an RMM to the calls and queries of a trace.
//!
//! A question is words that `RmmTraceLine::parse` accepts. Each is performed on the machine of the trace: a call by
//! registers, a load or a store of the host, a step of a guest, or a reading. The answer is words too, so it is
//! compared with a written one word by word, and printed in one way.
//!
//! | Module | It has |
//! |---|---|
//! | `machine`, `platform` | the machine of a trace, and how it is opened |
//! | `answering` | the answer to each question |
//! | `call`, `rounds`, `exit`, `outputs` | calls, repeated ones, and their outputs |
//! | `memory`, `page` | loads and stores of the host, and its parameter pages |
//! | `guest` | steps of guests, the end of their runs, and their results |
//! | `reading` | readings that no host has |
//! | `reply`, `put`, `place` | answers, the words that they are made of, and the places of their names |
//! | `words` | the words of a question |
//! | `judging`, `registers` | the verdict on an answer that is written |
//! | `law` | theorems: names of places, tables by name, and refusals that change nothing |
//! | `naming` | raw calls and their answers by names |
//!
//! A fresh machine takes memory, and no other question does.
#![tactic(auto)]

mod answering;
mod call;
mod exit;
mod guest;
mod judging;
pub mod law;
mod machine;
mod memory;
mod naming;
mod outputs;
mod page;
pub mod place;
mod platform;
mod put;
mod reading;
mod registers;
mod reply;
mod rounds;
mod words;

pub use answering::{answer_on, checks_on};
pub use judging::{Verdict, is_allowed, judge};
pub use machine::TraceMachine;
pub use naming::{named_answer, named_question};
pub use outputs::OUTPUTS;
pub use platform::{is_platform, open_platform};
pub use reply::{Digest, TraceReply};
