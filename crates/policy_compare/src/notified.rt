//! Whether a script's filters notify a call.

ghost use Rattle.std.specs.Prelude.{◌≡◌};
ghost use Rattle.std.specs.Option.{option_copied};
ghost use Rattle.policy_compare.specs.Notified.{is_notified, is_notify, register_of, registers};

use bpf_filter::verdict;
use hist_model::event::Entered;
use hist_model::request::Request;
use hist_model::script::FilterLine;
use hist_model::text::Sequence;

/// The number of a directory descriptor, as a register has it.
fn register_of(fd: i32) -> u64
    ensures { result ≡ register_of fd }
{
    u64::from(fd.cast_unsigned())
}

/// The arguments of a call that asks for this, each address 0.
fn registers(request: &Request) -> [u64; 6]
    ensures { result ≡ registers request.now }
{
    match request {
        Request::Mknod {
            dirfd: None,
            mode,
            dev,
            ..
        } => [0, u64::from(*mode), *dev, 0, 0, 0],
        Request::Mknod {
            dirfd: Some(fd),
            mode,
            dev,
            ..
        } => [register_of(*fd), 0, u64::from(*mode), *dev, 0, 0],
        Request::Mount { flags, .. } => [0, 0, 0, *flags, 0, 0],
        Request::SetXattr { value, flags, .. } => [
            0,
            0,
            0,
            value.items().len() as u64,
            u64::from(*flags),
            0,
        ],
        Request::OpenAt { dirfd, flags, .. } => [
            register_of(*dirfd),
            0,
            u64::from(*flags),
            0,
            0,
            0,
        ],
        Request::Sysinfo { addr } => [*addr, 0, 0, 0, 0, 0],
        Request::Other { .. } => [0; 6],
    }
}

/// Whether what filters say is that a call be notified.
fn is_notify(said: Entered) -> bool
    ensures { result ≡ is_notify said }
{
    matches!(said, Entered::Notify { .. })
}

/// Whether the filters notify a call that asks for this, with 0 for each address. Where there are no filters, nothing says that they
/// don't.
pub(crate) fn is_notified(filters: Option<&Sequence<FilterLine>>, request: &Request) -> bool
    ensures { result ≡ is_notified (option_copied filters.entry) request.now }
{
    match filters {
        Some(filters) => is_notify(verdict(filters.items(), request.call(), &registers(request))),
        None => true,
    }
}
