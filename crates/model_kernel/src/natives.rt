//! What is asked of the memory and the descriptors of one group: native calls, and the directory that a number leads to.

ghost use Rattle.std.specs.Prelude.{◌≡◌, ℕ, ◌∷◌, List, Some, IfOk, OnOk};
ghost use Rattle.hist_model.specs.Files.{files};
ghost use Rattle.hist_model.specs.Look.{Name, ev};
ghost use Rattle.hist_model.specs.Memory.{group_named};
ghost use Rattle.hist_model.specs.Natives.{base_of, native_answer, native_step};
ghost use Rattle.hist_model.specs.Steps.{pid_named};
ghost use Rattle.hist_model.specs.Trees.{ordinal_of};
ghost use Rattle.hist_model.specs.declared.event.Actor.TheVariants.{Task};
ghost use Rattle.hist_model.specs.declared.event.Event.{Event};
ghost use Rattle.hist_model.specs.declared.event.What.TheVariants.{Native};
ghost use Rattle.hist_model.specs.declared.script.Script.{Script};
ghost use Rattle.history_frames.specs.Ordinals.{group_of};
ghost use Rattle.native_calls.specs.Prepared.{IsPrepared};
ghost use Rattle.native_calls.specs.Stands.{IsEntered};
ghost use Rattle.task_groups.specs.Groups.{IsLive};
ghost use Rattle.model_kernel.specs.Stands.{HasNativeRoom, StandsFor};

use crate::resources::Resources;
use arg_capture::Capture;
use hist_model::request::NodeRef;
use native_calls::{Caller, NativeCall, base_of, ready, run};
use sys_abi::errno::Errno;
use sys_abi::memory::NoMemory;

impl Resources {
    /// The directory to which a descriptor of a group leads, or the container's root for AT_FDCWD.
    pub(crate) fn base_in(&self, group: u32, dirfd: i32) -> Option<NodeRef>
        requires { IsLive self.now.groups group }
        ensures { (S : Script) (K : List Event) (living : ℕ → ℕ) (g : ℕ) → StandsFor S K living self.now → group_of K group ≡ Some g → ordinal_of result ≡ base_of S (files S K) g dirfd }
    {
        base_of(&self.tree, &self.groups, self.container.root, group, dirfd)
    }

    /// The native call with these arguments, read out of the memory of a group.
    pub(crate) fn prepare(
        &self,
        group: u32,
        nr: i32,
        args: &[u64; 6],
        capture: &mut Capture,
        piece: &mut Vec<u8>,
    ) -> Result<NativeCall, NoMemory>
        requires { IsLive self.now.groups group }
        ensures { IfOk result (λ call. (S : Script) (K : List Event) (living : ℕ → ℕ) (g : ℕ) → StandsFor S K living self.now → group_of K group ≡ Some g → IsPrepared S K g nr args.now call) }
    {
        NativeCall::prepare(&self.groups, group, nr, args, capture, piece)
    }

    /// Makes room for a native call of a task of a group.
    pub(crate) fn ready_native(&mut self, group: u32, call: &NativeCall) -> Result<(), NoMemory>
        requires { IsLive self.old.groups group }
        ensures room { OnOk result (HasNativeRoom self.new group call.now) }
        ensures stands { (S : Script) (K : List Event) (living : ℕ → ℕ) → StandsFor S K living self.old → StandsFor S K living self.new }
    {
        ready(call, group, &mut self.tree, &mut self.groups)
    }

    /// Runs the native call that a task of a group with this PID owes, for which there is room. The answers are
    /// those of `native_calls::run`.
    pub(crate) fn run(&mut self, group: u32, pid: u32, call: NativeCall) -> Result<u32, Errno>
        requires live { IsLive self.old.groups group }
        requires room { HasNativeRoom self.old group call }
        ensures answer { (S : Script) (K : List Event) (living : ℕ → ℕ) (n : Name) (g : ℕ) → StandsFor S K living self.old → group_named K n ≡ Some g → group_of K group ≡ Some g → pid ≡ pid_named K n → IsEntered S K n g call → result ≡ native_answer (native_step S K (files S K) n) }
        ensures step { (S : Script) (K : List Event) (living : ℕ → ℕ) (n : Name) (g : ℕ) → StandsFor S K living self.old → group_named K n ≡ Some g → group_of K group ≡ Some g → pid ≡ pid_named K n → IsEntered S K n g call → StandsFor S (ev (Task n) (Native result) ∷ K) living self.new }
    {
        run(
            call,
            &self.container,
            Caller { group, pid },
            &mut self.tree,
            &mut self.walk,
            &mut self.groups,
        )
    }
}
