use crate::{Access, link_path, new_frame};
use std::test::Fail;
use tg_base::{Label, Temp};

#[test]
fn homes_of_mixed_escapes(rt: HostRuntime) -> Result<(), Fail> {
    let Ok(mut frame) = new_frame(rt.alloc(), Label(32), &[true, false, false, true]) else {
        return Err(Fail::from("no frame"));
    };
    let homes = [
        Access::InFrame(0),
        Access::InTemp(Temp(0)),
        Access::InTemp(Temp(1)),
        Access::InFrame(1),
    ];
    assert!(rt; frame.params.as_slice() == homes.as_slice());
    assert_eq!(rt; frame.label, Label(32));
    assert_eq!(rt; frame.out, 0);
    assert_eq!(rt; frame.alloc_local(true), Access::InFrame(2));
    assert_eq!(rt; frame.alloc_local(false), Access::InTemp(Temp(2)));
    assert_eq!(rt; frame.fresh(), Temp(3));
    assert_eq!(rt; (frame.slots, frame.temps), (3, 4));
    Ok(())
}

#[test]
fn links_lead_outwards(rt: HostRuntime) {
    assert_eq!(rt; link_path(3, 1), 2);
    assert_eq!(rt; link_path(3, 3), 0);
}
