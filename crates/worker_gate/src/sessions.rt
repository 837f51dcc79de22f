//! The sessions of workers, as far as they come to points at which a gate is called.

use crew::Point;
use hist_model::event::What;

/// How many workers there are.
const WORKERS: usize = 17;

/// Which workers have a notification in hand, and how often each found it valid.
pub(crate) struct Sessions {
    good_checks: [Option<u8>; WORKERS],
}

// (written out, so that what letting one go comes to is proved once, and not at each place that lets one go)
impl Drop for Sessions {
    fn drop(self) {
        let Sessions {
            good_checks: _good_checks,
        } = self;
    }
}

impl Sessions {
    /// No worker has a notification in hand.
    pub(crate) fn none() -> Sessions {
        Sessions {
            good_checks: [None; WORKERS],
        }
    }

    /// How often this worker found the notification valid that it has in hand, if it has one.
    fn of(&self, number: u8) -> Option<u8> {
        *self.good_checks.as_slice().get(usize::from(number))?
    }

    fn put(&mut self, number: u8, good_checks: Option<u8>) {
        if let Some(session) = self.good_checks.as_mut_slice().get_mut(usize::from(number)) {
            *session = good_checks;
        }
    }

    /// Whether this worker has a notification in hand.
    pub(crate) fn has(&self, number: u8) -> bool {
        self.of(number).is_some()
    }

    /// A worker took this step; tells the point that it came to, if it came to one.
    pub(crate) fn note(&mut self, number: u8, step: &What) -> Option<(Point, u64)> {
        match step {
            What::Recv { answer: Ok(notif) } => {
                self.put(number, Some(0));
                Some((Point::Fetched, notif.id))
            }
            What::Check { id, answer: Ok(()) } => {
                let good_checks = self.of(number).unwrap_or(0).saturating_add(1);
                self.put(number, Some(good_checks));
                if good_checks == 2 {
                    Some((Point::Checked, *id))
                } else {
                    None
                }
            }
            What::Send { id, .. } => Some((Point::Sent, *id)),
            What::LetGo => {
                self.put(number, None);
                None
            }
            _ => None,
        }
    }
}
