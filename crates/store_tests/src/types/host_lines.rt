use cops_script::host_lines::{read_admission, read_closing};
use std::process::Abort;

const ADMISSIONS: &str = "+ a 00000000-0000-0000-0000-000000000001 281474976710655 0 0 0 0 0 0 0
+ abcdefghijklmnop 00000000-0000-0000-0000-000000000001 0 4294967295 4294967295 4294967295 4294967295 1024 4294967295 4294967295
+ tenant 00000000000000000000000000000001 0 0 0 0 0 0 0 0";

/// Among them are lines with nine words after the sign, with eleven, and with forbidden spaces.
const NO_ADMISSIONS: &str = "+
+\x20

tenant a 00000000-0000-0000-0000-000000000001 0 0 0 0 0 0 0 0
- a 00000000-0000-0000-0000-000000000001 0 0 0 0 0 0 0 0
++ a 00000000-0000-0000-0000-000000000001 0 0 0 0 0 0 0 0
+a 00000000-0000-0000-0000-000000000001 0 0 0 0 0 0 0 0
+  a 00000000-0000-0000-0000-000000000001 0 0 0 0 0 0 0 0
 + a 00000000-0000-0000-0000-000000000001 0 0 0 0 0 0 0 0
+ a 00000000-0000-0000-0000-000000000001 0 0 0 0 0 0 0
+ a 00000000-0000-0000-0000-000000000001 0 0 0 0 0 0 0 0 0
+ a 00000000-0000-0000-0000-000000000001 0 0 0 0 0 0 0 0\x20
+ A 00000000-0000-0000-0000-000000000001 0 0 0 0 0 0 0 0
+ abcdefghijklmnopq 00000000-0000-0000-0000-000000000001 0 0 0 0 0 0 0 0
+ a 0000000000000000000000000000001 0 0 0 0 0 0 0 0
+ a 00000000-0000-0000-0000-000000000001 281474976710656 0 0 0 0 0 0 0
+ a 00000000-0000-0000-0000-000000000001 0 4294967296 0 0 0 0 0 0
+ a 00000000-0000-0000-0000-000000000001 0 00 0 0 0 0 0 0";

/// Asserts whether each line admits a tenant.
fn assert_admitting(rt: &impl Abort, lines: &str, admits: bool) {
    for line in lines.lines() {
        assert!(rt;
            read_admission(line.as_bytes()).is_some() == admits,
            "{line}"
        );
    }
}

#[test]
fn lines_that_admit(rt: HostRuntime) {
    assert_admitting(&rt, ADMISSIONS, true);
    assert_admitting(&rt, NO_ADMISSIONS, false);
}

#[test]
fn an_admitted_tenant(rt: HostRuntime) {
    let line = b"+ acme 00000000-0000-0000-0000-000000000001 7 100 10000 10 4 20 8 1000";
    let tenant = read_admission(line).expect(&rt, "a tenant");
    assert!(&rt; tenant.name.bytes() == b"acme".as_slice());
    assert!(&rt; tenant.token.as_bytes()[15] == 1);
    assert!(&rt; tenant.first_clock == 7);
    assert!(&rt; tenant.quota.versions == 100);
    assert!(&rt; tenant.quota.audit == 1000);
}

const CLOSINGS: &str = "- a
- abcdefghijklmnop
- 0_9";

const NO_CLOSINGS: &str = "-
-\x20

-a
- a\x20
-  a
 - a
- A
- a b
+ a
-- a
- aaaaaaaaaaaaaaaaa";

/// Asserts whether each line closes a tenant, whose name is what stands behind the first two bytes.
fn assert_closing(rt: &impl Abort, lines: &str, closes: bool) {
    for line in lines.lines() {
        match read_closing(line.as_bytes()) {
            Some(name) => assert!(rt; closes && line.as_bytes().get(2..) == Some(name.bytes())),
            None => assert!(rt; !closes, "{line}"),
        }
    }
}

#[test]
fn lines_that_close(rt: HostRuntime) {
    assert_closing(&rt, CLOSINGS, true);
    assert_closing(&rt, NO_CLOSINGS, false);
}
