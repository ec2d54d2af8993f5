use crate::Table;
use tg_base::Memory;

#[test]
fn a_scope_hides_and_ends(rt: HostRuntime) -> Result<(), Memory> {
    let mut table = Table::new(rt.alloc());
    assert_eq!(rt; table.get(7).copied(), None);
    table.push(7, 70u32)?;
    table.push(8, 80)?;
    let scope = table.len();
    table.push(7, 71)?;
    table.push(7, 72)?;
    table.push(9, 90)?;
    assert_eq!(rt; table.get(7).copied(), Some(72));
    assert_eq!(rt; table.get(8).copied(), Some(80));
    assert_eq!(rt; table.find(7), Some(1));
    assert_eq!(rt; table.find(8), Some(3));
    assert_eq!(rt; table.find(6), None);
    let entries = table.to_vec(rt.alloc())?;
    assert!(rt; entries.as_slice() == [(9, 90), (7, 72), (7, 71), (8, 80), (7, 70)].as_slice());
    table.cut_to(scope);
    assert_eq!(rt; table.get(7).copied(), Some(70));
    assert_eq!(rt; table.get(9).copied(), None);
    table.cut_to(0);
    assert_eq!(rt; table.len(), 0);
    assert_eq!(rt; table.get(8).copied(), None);
    Ok(())
}
