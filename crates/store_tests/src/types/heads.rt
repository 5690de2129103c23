use cops_types::{ConfigReader, HeadLine, OldConfigReader};
use std::alloc::Global;
use std::process::Abort;

const CLUSTER: &[u8] = b"cluster 1 1 5000 1";

const ACME: &[u8] = b"tenant acme 00000000-0000-0000-0000-000000000001 0 100 10000 10 4 20 8 1000";

/// 0 for more, 1 for a bad line, and 2 and the number of tenants at the end.
fn number_of(line: &HeadLine) -> usize {
    match line {
        HeadLine::More => 0,
        HeadLine::BadLine => 1,
        HeadLine::Begin(config) => config.tenants.len().saturating_add(2),
    }
}

/// The same, and the line is no more.
fn taken(line: HeadLine) -> usize {
    let number = number_of(&line);
    drop(line);
    number
}

/// Returns the meaning of a line, as a number.
fn said(rt: &impl Abort, reader: &mut ConfigReader, alloc: Global, line: &[u8]) -> usize {
    taken(reader.line(alloc, line).expect(rt, "memory"))
}

/// The same of a text.
fn said_to(rt: &impl Abort, reader: &mut ConfigReader, alloc: Global, line: &str) -> usize {
    said(rt, reader, alloc, line.as_bytes())
}

/// Asserts what a line says.
fn assert_said(
    rt: &impl Abort,
    reader: &mut ConfigReader,
    alloc: Global,
    line: &[u8],
    says: usize,
) {
    assert_eq!(rt; said(rt, reader, alloc, line), says);
}

const CLUSTERS: &str = "cluster 8 64 0 0
cluster 1 1 18446744073709551615 15
cluster 2 1 5000 1";

/// The last line but one is empty.
const BAD_CLUSTERS: &str = "cluster 0 1 5000 1
cluster 9 1 5000 1
cluster 1 0 5000 1
cluster 1 65 5000 1
cluster 1 1 18446744073709551616 1
cluster 1 1 5000 16
cluster 1 1 5000
cluster 1 1 5000 1 1
cluster 1 1 5000 1\x20
cluster  1 1 5000 1
 cluster 1 1 5000 1
cluster 01 1 5000 1

cluster +1 1 5000 1";

/// Returns the meaning of a line alone.
fn said_alone(rt: &impl Abort, alloc: Global, line: &str) -> usize {
    let mut reader = ConfigReader::new();
    let number = said_to(rt, &mut reader, alloc, line);
    drop(reader);
    number
}

/// Asserts that each line alone is a head of one good line, or of none.
fn assert_alone(rt: &impl Abort, alloc: Global, lines: &str, bad: usize) {
    for line in lines.lines() {
        assert_eq!(rt; said_alone(rt, alloc, line), bad, "{line}");
    }
}

#[test]
fn limits_of_a_cluster(rt: HostRuntime) {
    assert_alone(&rt, rt.alloc(), CLUSTERS, 0);
    assert_alone(&rt, rt.alloc(), BAD_CLUSTERS, 1);
}

const TENANTS: &str = "tenant a 00000000-0000-0000-0000-000000000001 281474976710655 0 0 0 0 0 0 0
tenant abcdefghijklmnop 00000000-0000-0000-0000-000000000001 0 4294967295 4294967295 4294967295 4294967295 1024 4294967295 4294967295
tenant acme 00000000-0000-0000-0000-000000000001 0 100 10000 10 4 20 8 1000";

const BAD_TENANTS: &str =
    "tenant a 00000000-0000-0000-0000-000000000001 281474976710656 0 0 0 0 0 0 0
tenant a 00000000-0000-0000-0000-000000000001 0 4294967296 0 0 0 0 0 0
tenant a 00000000-0000-0000-0000-000000000001 0 0 4294967296 0 0 0 0 0
tenant a 00000000-0000-0000-0000-000000000001 0 0 0 4294967296 0 0 0 0
tenant a 00000000-0000-0000-0000-000000000001 0 0 0 0 4294967296 0 0 0
tenant a 00000000-0000-0000-0000-000000000001 0 0 0 0 0 1025 0 0
tenant a 00000000-0000-0000-0000-000000000001 0 0 0 0 0 0 4294967296 0
tenant a 00000000-0000-0000-0000-000000000001 0 0 0 0 0 0 0 4294967296
tenant a 00000000-0000-0000-0000-000000000001 0 0 0 0 0 0 0
tenant a 00000000-0000-0000-0000-000000000001 0 0 0 0 0 0 0 0 0
tenant abcdefghijklmnopq 00000000-0000-0000-0000-000000000001 0 0 0 0 0 0 0 0
tenant A 00000000-0000-0000-0000-000000000001 0 0 0 0 0 0 0 0
tenant a 0000000000000000000000000000001 0 0 0 0 0 0 0 0
tenant  00000000-0000-0000-0000-000000000001 0 0 0 0 0 0 0 0";

/// Returns the meaning of a line after a line of a cluster, once it is asserted whether a head may
/// end there.
fn said_behind(rt: &impl Abort, reader: &mut ConfigReader, alloc: Global, line: &str) -> usize {
    assert_said(rt, reader, alloc, CLUSTER, 0);
    let number = said_to(rt, reader, alloc, line);
    let end = if number == 0 { 3 } else { 1 };
    assert_said(rt, reader, alloc, b"begin", end);
    number
}

/// Returns the meaning of a line as that of the first tenant.
fn said_of_tenant(rt: &impl Abort, alloc: Global, line: &str) -> usize {
    let mut reader = ConfigReader::new();
    let number = said_behind(rt, &mut reader, alloc, line);
    drop(reader);
    number
}

/// Asserts what each line says as that of the first tenant.
fn assert_first_tenant(rt: &impl Abort, alloc: Global, lines: &str, bad: usize) {
    for line in lines.lines() {
        assert_eq!(rt; said_of_tenant(rt, alloc, line), bad, "{line}");
    }
}

#[test]
fn limits_of_a_tenant(rt: HostRuntime) {
    assert_first_tenant(&rt, rt.alloc(), TENANTS, 0);
    assert_first_tenant(&rt, rt.alloc(), BAD_TENANTS, 1);
}

/// Returns the meaning of a tenant's line. It is read again if memory ran out, with the same
/// meaning.
fn said_in_the_end(rt: &impl Abort, reader: &mut ConfigReader, alloc: Global) -> usize {
    match reader.line(alloc, ACME) {
        Ok(line) => taken(line),
        Err(_) => said(rt, reader, alloc, ACME),
    }
}

/// Asserts what the lines of a head say, for runs in which one allocation fails.
fn assert_read_again(rt: &impl Abort, reader: &mut ConfigReader, alloc: Global) {
    assert_said(rt, reader, alloc, CLUSTER, 0);
    assert!(rt; said_in_the_end(rt, reader, alloc) == 0);
    assert_said(rt, reader, alloc, b"begin", 3);
}

#[test]
fn a_line_is_read_again_after_want_of_memory(rt: HostRuntime) {
    let mut reader = ConfigReader::new();
    assert_read_again(&rt, &mut reader, rt.alloc());
    drop(reader);
}

/// Returns the meaning of a line of a head of layout 1, as a number.
fn old_said(rt: &impl Abort, reader: &mut OldConfigReader, alloc: Global, line: &[u8]) -> usize {
    taken(reader.line(alloc, line).expect(rt, "memory"))
}

/// Asserts what a line of a head of layout 1 says.
fn assert_old(
    rt: &impl Abort,
    reader: &mut OldConfigReader,
    alloc: Global,
    line: &[u8],
    says: usize,
) {
    assert_eq!(rt; old_said(rt, reader, alloc, line), says);
}

const LAST: &[u8] =
    b"tenant acme 00000000-0000-0000-0000-000000000001 72057594037927935 0 0 0 0 0 0 0";

const PAST: &[u8] =
    b"tenant acme 00000000-0000-0000-0000-000000000001 72057594037927936 0 0 0 0 0 0 0";

/// Asserts that the last clock of layout 1 may be the first of a tenant.
fn assert_last_clock(rt: &impl Abort, reader: &mut OldConfigReader, alloc: Global) {
    assert_old(rt, reader, alloc, b"cluster 8 16 5000 1", 0);
    assert!(rt; reader.has_clocks_to(0));
    assert_old(rt, reader, alloc, LAST, 0);
    assert!(rt; !reader.has_clocks_to(72057594037927934));
    assert_old(rt, reader, alloc, b"begin", 3);
}

#[test]
fn heads_of_layout_1(rt: HostRuntime) {
    let mut reader = ConfigReader::layout_1();
    assert_last_clock(&rt, &mut reader, rt.alloc());
    drop(reader);
}

#[test]
fn a_node_of_layout_1_has_4_bits(rt: HostRuntime) {
    let mut reader = ConfigReader::layout_1();
    assert_old(&rt, &mut reader, rt.alloc(), b"cluster 1 17 5000 1", 1);
    drop(reader);
}

#[test]
fn a_clock_past_the_last_of_layout_1(rt: HostRuntime) {
    let mut reader = ConfigReader::layout_1();
    assert_old(&rt, &mut reader, rt.alloc(), CLUSTER, 0);
    assert_old(&rt, &mut reader, rt.alloc(), PAST, 1);
    drop(reader);
}

/// Returns the meaning of a tenant's line. It is read again if memory ran out, with the same
/// meaning.
fn old_said_in_the_end(rt: &impl Abort, reader: &mut OldConfigReader, alloc: Global) -> usize {
    match reader.line(alloc, ACME) {
        Ok(line) => taken(line),
        Err(_) => old_said(rt, reader, alloc, ACME),
    }
}

/// Asserts what the lines of a head say, for runs in which one allocation fails.
fn assert_old_read_again(rt: &impl Abort, reader: &mut OldConfigReader, alloc: Global) {
    assert_old(rt, reader, alloc, CLUSTER, 0);
    assert!(rt; old_said_in_the_end(rt, reader, alloc) == 0);
    assert_old(rt, reader, alloc, b"begin", 3);
}

#[test]
fn an_old_line_is_read_again_after_want_of_memory(rt: HostRuntime) {
    let mut reader = ConfigReader::layout_1();
    assert_old_read_again(&rt, &mut reader, rt.alloc());
    drop(reader);
}
