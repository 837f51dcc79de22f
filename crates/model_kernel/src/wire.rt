//! What workers ask of the listener by the structures that they hand over (seccomp_unotify(2)).

ghost use Rattle.std.specs.Prelude.{◌≡◌, ◌<◌, ◌≤◌, true, false, None};
ghost use Rattle.listener.specs.Puts.{may_be_put};
ghost use Rattle.hist_model.specs.Deeds as deed;
ghost use Rattle.hist_model.specs.Steps.{request_of};
ghost use Rattle.listener.specs.Answers.{may_be_sent};
ghost use Rattle.sys_abi.specs.Wire.{addfd_of, resp_of};
ghost use Rattle.model_kernel.specs.Kernels.{DoesDeed, IsKernel, past, system};
ghost use Rattle.model_kernel.specs.Wire.{buffer_after, is_answered, put_result, recv_result, send_of, send_result};

use crate::kernel::Kernel;
use listener::{FetchError, back_of, check_recv, parse_put, parse_send};
use sys_abi::errno::Errno;
use thiserror::Error;

/// Why a receive left no notification in its buffer (SECCOMP_IOCTL_NOTIF_RECV).
#[derive(Clone, Copy, PartialEq, Eq, Debug, Error)]
pub enum RecvError {
    /// Nothing was requested: the receive has to wait.
    #[error("no notification")]
    Empty,
    /// EINVAL where the buffer isn't filled with zeros, else ENOENT: the call that was requested isn't listed any more.
    #[error("not received")]
    Fault(Errno),
}

impl Kernel {
    /// A worker receives the notification of the oldest call that wasn't received into a buffer
    /// (SECCOMP_IOCTL_NOTIF_RECV): EINVAL exactly where the buffer isn't filled with zeros, which is no event; else `Empty`
    /// exactly where the count of requests is 0, which is none either; else ENOENT where no such call is listed. With an
    /// error the buffer stays as it was.
    pub fn recv(&mut self, worker: u8, buf: &mut [u8; 80]) -> Result<(), RecvError>
        requires kernel { IsKernel self.old }
        requires worker { worker ≤ 16 }
        requires room { 0 < self.old.history.spare }
        ensures answer { result ≡ recv_result (past self.old) buf.old }
        ensures buffer { buf.new ≡ buffer_after (past self.old) buf.old }
        ensures done { is_answered (past self.old) buf.old ≡ true → DoesDeed self.old worker deed.Recv self.new }
        ensures same { is_answered (past self.old) buf.old ≡ false → self.new ≡ self.old }
        ensures kernel { IsKernel self.new }
    {
        if let Err(errno) = check_recv(buf) {
            return Err(RecvError::Fault(errno));
        }
        match self.receive(worker) {
            Ok(notif) => {
                *buf = notif.to_bytes();
                Ok(())
            }
            Err(FetchError::Gone) => Err(RecvError::Fault(Errno::ENOENT)),
            Err(FetchError::Empty) => Err(RecvError::Empty),
        }
    }

    /// A worker answers a call by the structure of SECCOMP_IOCTL_NOTIF_SEND: EINVAL exactly for one that may not be sent
    /// (`parse_send`), which is no event; else ENOENT exactly where no listed call has its id, EINPROGRESS where the call's
    /// notification wasn't received, or it was answered.
    pub fn notif_send(&mut self, worker: u8, bytes: &[u8; 24]) -> Result<(), Errno>
        requires kernel { IsKernel self.old }
        requires room { 0 < self.old.history.spare }
        ensures answer { result ≡ send_result (past self.old) (resp_of bytes.now) }
        ensures done { may_be_sent (resp_of bytes.now) ≡ true → DoesDeed self.old worker (send_of (resp_of bytes.now)) self.new }
        ensures same { may_be_sent (resp_of bytes.now) ≡ false → self.new ≡ self.old }
        ensures kernel { IsKernel self.new }
    {
        let resp = parse_send(bytes)?;
        self.send(worker, resp.id, &back_of(&resp))
    }

    /// A worker, which has no request, asks for a descriptor by the structure of SECCOMP_IOCTL_NOTIF_ADDFD: EINVAL exactly
    /// for one that can't be asked for (`parse_put`), which is no event; else EBADF exactly where its source isn't open in
    /// the broker, and then ENOENT, EINPROGRESS and EBUSY as `put` has them.
    pub fn addfd_put(&mut self, worker: u8, bytes: &[u8; 24]) -> Result<(), Errno>
        requires kernel { IsKernel self.old }
        requires worker { worker ≤ 16 }
        requires free { request_of (past self.old) worker ≡ None }
        requires room { 0 < self.old.history.spare }
        ensures answer { result ≡ put_result (system self.old) (past self.old) (addfd_of bytes.now) }
        ensures done { may_be_put (addfd_of bytes.now) ≡ true → DoesDeed self.old worker (deed.AddfdPut (addfd_of bytes.now)) self.new }
        ensures same { may_be_put (addfd_of bytes.now) ≡ false → self.new ≡ self.old }
        ensures kernel { IsKernel self.new }
    {
        // Whether the source is open is for `put` to say, since its answer is an event.
        let asked = parse_put(bytes, true)?;
        self.put(worker, asked)
    }
}
