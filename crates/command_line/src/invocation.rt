//! The request and the file that a command line gives to a program.

/// A parsed command line, with the request and the file to read.
#[derive(Clone, Copy)]
pub struct Invocation<'a, A> {
    /// The request that the command line makes to the program.
    pub asked: A,
    /// The name of the file to read, or `None` for standard input.
    pub file: Option<&'a str>,
}
