ghost use Rattle.std.specs.Prelude.{◌≡◌};

use crate::entries::{key, value};
use crate::pairs::{deps, pair};
use cops_session::{AfterFirst, AfterSecond, FirstRound};
use cops_types::{Deps, Found, FoundParts, Key, Read, Version};
use std::alloc::Global;
use std::process::Abort;

/// The dependencies that have x 1.0 alone.
pub(crate) fn on_x(rt: &impl Abort, alloc: Global) -> Deps {
    deps(rt, alloc, &[pair(rt, b"x", 1, 0)])
}

fn absent(key: Key) -> Read
    ensures { result.key ≡ key }
{
    Read::new(key, None)
}

fn found(rt: &impl Abort, alloc: Global, key: Key, version: Version, deps: Deps) -> Read
    ensures key { result.key ≡ key }
    ensures version { result.version ≡ version }
{
    let parts = FoundParts {
        version,
        value: value(rt, alloc),
        deps,
    };
    Read::new(key, Some(Found::new(alloc, parts).expect(rt, "memory")))
}

/// The round over two keys after two reads, x being absent.
fn after_two(rt: &impl Abort, alloc: Global, y: Read) -> AfterFirst {
    let keys = [key(rt, b"x"), key(rt, b"y")];
    let round = FirstRound::begin(alloc, &keys).expect(rt, "memory");
    let x = round.wanted();
    match round.accept(absent(x)) {
        Ok(AfterFirst::More(round)) => {
            assert!(rt; round.wanted() == *y.key());
            match round.accept(y) {
                Ok(after) => after,
                Err(_) => panic!(rt; "memory"),
            }
        }
        _ => panic!(rt; "one key is left"),
    }
}

#[test]
fn second_round_asks_for_what_the_first_depends_on(rt: HostRuntime) {
    let y = found(
        &rt,
        rt.alloc(),
        key(&rt, b"y"),
        Version::of(2, 1),
        on_x(&rt, rt.alloc()),
    );
    match after_two(&rt, rt.alloc(), y) {
        AfterFirst::Second(round) => {
            let wish = round.wanted();
            assert!(rt; wish.key == key(&rt, b"x") && wish.version == Version::of(1, 0));
            let x = found(
                &rt,
                rt.alloc(),
                wish.key,
                wish.version,
                Deps::empty(rt.alloc()),
            );
            match round.accept(x) {
                AfterSecond::Complete(reads) => {
                    assert_eq!(rt; reads.len(), 2);
                    assert!(rt; reads.as_slice()[0].version() == Version::of(1, 0));
                    assert!(rt; reads.as_slice()[1].version() == Version::of(2, 1));
                }
                AfterSecond::More(_) => panic!(rt; "nothing is left"),
            }
        }
        _ => panic!(rt; "x is older than wanted"),
    }
}

#[test]
fn complete_at_once(rt: HostRuntime) {
    let y = found(
        &rt,
        rt.alloc(),
        key(&rt, b"y"),
        Version::of(2, 1),
        Deps::empty(rt.alloc()),
    );
    assert!(rt; matches!(after_two(&rt, rt.alloc(), y), AfterFirst::Complete(_)));
}
