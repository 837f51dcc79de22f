//! Why what a worker asks for isn't done.

/// Why what a worker asks for isn't done, so that nothing happens.
#[derive(Clone, Copy)]
pub enum Refusal {
    /// A worker asks to write where it has no memory open.
    NoMemoryIsOpen,
    /// A worker asks for a second descriptor before it has taken what came of the first one.
    RequestIsPut,
    /// A worker asks what came of a request that it hasn't put.
    NoRequest,
}
