use std::test::Fail;
use tg_symbols::Table;

#[test]
fn a_scope_hides_and_ends(rt: HostRuntime) -> Result<(), Fail> {
    let mut table = Table::new(rt.alloc());
    table.push(7, 70u32)?;
    table.push(8, 80)?;
    let scope = table.len();
    for (name, value) in [(7, 71), (7, 72), (9, 90)] {
        table.push(name, value)?;
    }
    for (name, value, place) in [
        (6, None, None),
        (7, Some(72), Some(1)),
        (8, Some(80), Some(3)),
        (9, Some(90), Some(0)),
    ] {
        assert_eq!(rt; table.get(name).copied(), value, "{name}");
        assert_eq!(rt; table.find(name), place, "{name}");
    }
    let entries = table.to_vec(rt.alloc())?;
    assert!(rt; entries.as_slice() == [(9, 90), (7, 72), (7, 71), (8, 80), (7, 70)].as_slice());
    assert!(rt; scope <= table.len());
    table.cut_to(scope);
    for (name, value) in [(7, Some(70)), (8, Some(80)), (9, None)] {
        assert_eq!(rt; table.get(name).copied(), value, "{name} behind the scope");
    }
    Ok(())
}
