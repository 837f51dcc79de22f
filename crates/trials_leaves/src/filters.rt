//! Which of the answers of several filters counts, by the order of actions in seccomp(2).

use bpf_filter::combine;

#[test]
fn the_highest_and_newest_answer_counts(rt: HostRuntime) {
    // an error of the newest filter, before another error and ALLOW
    assert_eq!(rt;
        combine(&[0x0005_0002, 0x0005_0001, 0x7fff_0000]),
        (0x0005_0002, 0)
    );
    // a notification of the older filter, before TRACE
    assert_eq!(rt; combine(&[0x7ff0_0000, 0x7fc0_0000]), (0x7fc0_0000, 1));
    // an action that isn't defined ranks by its number
    assert_eq!(rt; combine(&[0x7ffd_0000, 0x0005_0001]), (0x0005_0001, 1));
    // without a filter a call is allowed
    assert_eq!(rt; combine(&[]), (0x7fff_0000, 0));
}
