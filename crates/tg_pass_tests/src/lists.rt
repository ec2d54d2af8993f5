use std::test::Fail;
use tg_base::ListOf;

#[test]
fn a_list_is_its_vectors_items(rt: HostRuntime) -> Result<(), Fail> {
    let list = ListOf::from_vec(vec![in rt.alloc(); 3u32, 1, 2]?);
    assert!(rt; list.as_slice() == [3, 1, 2].as_slice());
    assert!(rt; list.into_vec().as_slice() == [3, 1, 2].as_slice());
    Ok(())
}
