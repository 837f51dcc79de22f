//! What the check finds of a report: that it is a legal history's, where there is memory.

use audit_check::check::check_report;
use audit_check::found::Checked;
use policy_reader::read_policy;
use script_reader::read_script;
use std::test::Fail;

#[test]
fn finds_the_history(rt: HostRuntime) -> Result<(), Fail> {
    let alloc = rt.alloc();
    let policy = read_policy(alloc, b"{}")?;
    let script = read_script(alloc, b"prog main\nend\n")?;
    let report = "journal 3
0 - spawn 0 pid=1 new
1 w0 skip
2 listener close
calls 0
audit 0
summary events=3 calls=0 notified=0 answered=0 granted=0 denied=0 passed=0 injected=0 faults=0 gone=0 lost=0
";
    match check_report(alloc, &policy, script, report.as_bytes())? {
        Checked::Yes {
            history,
            finished,
            tables,
        } => {
            assert_eq!(rt; history.len(), 3);
            assert!(rt; !finished);
            assert!(rt; tables.sessions.is_empty());
        }
        Checked::No { line } => assert_eq!(rt; line, 0),
    }
    Ok(())
}
