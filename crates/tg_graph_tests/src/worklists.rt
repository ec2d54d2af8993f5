use std::test::Fail;
use tg_graph::{Worklist, Worklists};

#[test]
fn registers_are_fixed_and_temporaries_may_be_spilled(rt: HostRuntime) -> Result<(), Fail> {
    let lists = Worklists::new(rt.alloc(), 40)?;
    assert_eq!(rt; lists.first(Worklist::Fixed), Some(0));
    assert_eq!(rt; lists.first(Worklist::Spill), Some(25));
    assert_eq!(rt; lists.first(Worklist::Simplify), None);
    assert_eq!(rt; (lists.next(23), lists.next(24)), (Some(24), None));
    assert_eq!(rt; (lists.next(25), lists.next(39)), (Some(26), None));
    assert!(rt; lists.place_of(24) == Worklist::Fixed && lists.place_of(25) == Worklist::Spill);
    Ok(())
}

#[test]
fn a_node_moved_goes_last(rt: HostRuntime) -> Result<(), Fail> {
    let mut lists = Worklists::new(rt.alloc(), 40)?;
    lists.move_to(30, Worklist::Simplify);
    lists.move_to(25, Worklist::Simplify);
    lists.move_to(30, Worklist::Simplify);
    lists.move_to(39, Worklist::Stacked);
    assert_eq!(rt; lists.first(Worklist::Simplify), Some(25));
    assert_eq!(rt; (lists.next(25), lists.next(30)), (Some(30), None));
    assert_eq!(rt; lists.first(Worklist::Spill), Some(26));
    assert_eq!(rt; (lists.next(29), lists.next(38)), (Some(31), None));
    assert_eq!(rt; lists.first(Worklist::Stacked), Some(39));
    assert!(rt; lists.place_of(30) == Worklist::Simplify);
    assert!(rt; lists.place_of(39) == Worklist::Stacked);
    Ok(())
}
