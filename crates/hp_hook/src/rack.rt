//! The hooks that are handed in.

/// The hooks that a program, a test or another caller hands in, each for one subsystem at a time.
///
/// The type of the hooks is a parameter: a program puts `Box<dyn Hook + Send>` there, a test a
/// type of its own. This project's own.
#[derive(Drop)]
pub struct Rack<H> {
    /// The hooks, in no order that matters before they are given out.
    pub hooks: Vec<H>,
}
