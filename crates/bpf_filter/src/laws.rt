//! What filters read, in terms of the structure that the kernel gives them, and which of their answers counts.

ghost use Rattle.std.specs.Prelude.{◌≡◌, ℕ, ◌<◌, List, length};
ghost use Rattle.std.specs.List.{flat_map};
ghost use Rattle.bpf_filter.specs.Precedence.{IsHighest};
ghost use Rattle.hist_model.specs.Filters.{combine, words};
ghost use Rattle.sys_abi.specs.Wire.{u32_bytes, seccomp_data_bytes};
ghost use Rattle.sys_abi.specs.declared.wire.SeccompData.{SeccompData};

/// The words that a filter loads are the bytes of the call's data, four to a word (seccomp(2), struct seccomp_data).
pub fn words_are_the_bytes()
    ensures { (call : SeccompData) → flat_map u32_bytes (words call) ≡ seccomp_data_bytes call }
{}

/// Of the answers of several filters, the newest first, the one of highest precedence counts, the newest among equals (seccomp(2),
/// return values).
pub fn highest_answer_counts()
    ensures { (values : List ℕ) → 0 < length values → IsHighest values (combine values) }
{}
