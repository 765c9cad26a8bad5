//! A struct form of `Box`, with its raw pointer and its allocator as public fields. It is for code that keeps a box's
//! raw pointer, such as handles for C.
#![tactic(auto)]

mod parts;

pub use parts::BoxParts;
