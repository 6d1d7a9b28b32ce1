// The table with ample memory: what `find` answers at the borders of rows, live and dead.
ghost use Rattle.std.specs.Prelude.{◌≡◌};

use bm_objects::{Objects, Row};
use std::test::Fail;

fn row(addr: u32, size: u32) -> Row
    ensures begins { result.addr ≡ addr }
    ensures bytes { result.size ≡ size }
{
    Row {
        addr,
        elem: 3,
        count: size / 4,
        size,
        site: Some(addr / 16),
        live: true,
    }
}

#[test]
fn finds_rows_by_any_address_of_theirs(rt: HostRuntime) -> Result<(), Fail> {
    let mut objects = Objects::fresh(rt.alloc());
    assert!(rt; objects.is_empty());
    assert_eq!(rt; objects.find(0x1000), None);
    let (first, second, third) = (row(0x1000, 32), row(0x1030, 8), row(0x1050, 64));
    objects.add(first)?;
    objects.add(second)?;
    objects.add(third)?;
    objects.kill(0x1030);
    let dead = Row {
        live: false,
        ..second
    };
    let cases = [
        (0, None),
        (0xfff, None),
        (0x1000, Some(first)),
        (0x101f, Some(first)),
        (0x1020, Some(first)),
        (0x1021, None),
        (0x102f, None),
        (0x1030, Some(dead)),
        (0x1038, Some(dead)),
        (0x1039, None),
        (0x1050, Some(third)),
        (0x1090, Some(third)),
        (0x1091, None),
        (0xffff_ffff, None),
    ];
    for (addr, want) in cases {
        assert_eq!(rt; objects.find(addr), want, "at {addr}");
    }
    assert_eq!(rt; objects.len(), 3);
    for (i, want) in [first, dead, third].iter().enumerate() {
        assert!(rt; i < objects.len());
        assert_eq!(rt; objects.row(i), *want);
    }
    Ok(())
}
