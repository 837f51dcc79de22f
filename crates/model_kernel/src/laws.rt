//! Laws of scripts that the kernel stands on. Each is the contract of a function that does nothing.

ghost use Rattle.hist_model.specs.ScriptRules.{IsScript};
ghost use Rattle.hist_model.specs.declared.script.Script.{Script};
ghost use Rattle.model_kernel.specs.Keys.{TellKernels};
ghost use Rattle.model_kernel.specs.Mapped.{MapsByteByByte, StoresWhereMapped};

/// Bytes are mapped, as it is said of the ranges of a script, exactly where the address of each of them lies in a range.
#[tactic(auto, using(crate::proofs::MappedRanges::maps_byte_by_byte))]
pub fn mapped_byte_by_byte()
    ensures { (S : Script) → IsScript S → MapsByteByByte S }
{}

/// Each byte of each `poke` and `fill` of a script is stored at a mapped address.
#[tactic(auto, using(crate::proofs::MappedRanges::stores_where_mapped))]
pub fn stores_where_mapped()
    ensures { (S : Script) → IsScript S → StoresWhereMapped S }
{}

/// Keys of kernels end by themselves: where equal bytes begin with two of them, the kernels have the same tables, and what comes after is
/// equal.
pub fn keys_tell_kernels()
    ensures { TellKernels }
{}
