//! Points in the service of a notification at which a thread calls out.

/// A point in the service of a notification.
#[derive(Clone, Copy, PartialEq, Eq, Debug)]
pub enum Point {
    /// It was received by the worker that serves it.
    Fetched,
    /// The second check found its id valid.
    Checked,
    /// Its answer was sent, whether or not it was taken.
    Sent,
}

/// What a thread calls at each point, outside every turn of a lock: with the container, counted from 0, the number of the worker, or of
/// the lane where lanes are served, and the notification's id. It promises nothing, and the thread goes on once it returns.
pub trait Gate {
    fn at(&self, point: Point, container: u8, server: u8, id: u64);

    /// Whether a thread may be held there. It isn't called otherwise, so that no thread leaves the door for it.
    fn holds(&self) -> bool;
}

/// A gate that holds nobody.
pub struct OpenGate;

impl Gate for OpenGate {
    fn at(&self, _point: Point, _container: u8, _server: u8, _id: u64) {}

    fn holds(&self) -> bool {
        false
    }
}
