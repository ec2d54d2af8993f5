use std::alloc::Global;
use std::test::Fail;
use tg_base::{Memory, Temp};
use tg_fold::fold;
use tg_tree::{Bin, Rel, Ts, Tx, binary, compare, if_else, sequence};

// The word that a folded operator on two constants is, if it is one.
fn word(alloc: Global, op: Bin, left: u32, right: u32) -> Result<Option<u32>, Memory> {
    let value = binary(alloc, op, Tx::Const(left), Tx::Const(right))?;
    match fold(alloc, Ts::Return(value))? {
        Ts::Return(Tx::Const(n)) => Ok(Some(n)),
        _ => Ok(None),
    }
}

// Whether a folded comparison of two constants chooses the first of two statements.
fn chooses_first(alloc: Global, rel: Rel, left: u32, right: u32) -> Result<bool, Memory> {
    let test = compare(alloc, rel, Tx::Const(left), Tx::Const(right))?;
    match fold(alloc, if_else(alloc, test, Ts::Fault(1), Ts::Fault(2))?)? {
        Ts::Fault(n) => Ok(n == 1),
        _ => Ok(false),
    }
}

#[test]
fn operators_give_words_at_their_edges(rt: HostRuntime) -> Result<(), Fail> {
    let alloc = rt.alloc();
    assert_eq!(rt; word(alloc, Bin::Add, 0xFFFF_FFFF, 2)?, Some(1));
    assert_eq!(rt; word(alloc, Bin::Sub, 0, 1)?, Some(0xFFFF_FFFF));
    assert_eq!(rt; word(alloc, Bin::Mul, 0x1_0000, 0x1_0001)?, Some(0x1_0000));
    assert_eq!(rt;
        word(alloc, Bin::Div, 0x8000_0000, 0xFFFF_FFFF)?,
        Some(0x8000_0000)
    );
    assert_eq!(rt; word(alloc, Bin::Div, 7, 0)?, None);
    assert_eq!(rt; word(alloc, Bin::ShiftLeft, 3, 33)?, Some(6));
    assert_eq!(rt;
        word(alloc, Bin::ShiftSigned, 0x8000_0000, 33)?,
        Some(0xC000_0000)
    );
    assert_eq!(rt; word(alloc, Bin::AddTrap, 0x7FFF_FFFF, 1)?, None);
    assert_eq!(rt;
        word(alloc, Bin::SubTrap, 0x8000_0001, 1)?,
        Some(0x8000_0000)
    );
    assert_eq!(rt;
        word(alloc, Bin::MulHigh, 0x8000_0000, 0x8000_0000)?,
        Some(0x4000_0000)
    );
    Ok(())
}

#[test]
fn comparisons_choose(rt: HostRuntime) -> Result<(), Fail> {
    let alloc = rt.alloc();
    assert!(rt; chooses_first(alloc, Rel::Less, 0xFFFF_FFFF, 0)?);
    assert!(rt; !chooses_first(alloc, Rel::Below, 0xFFFF_FFFF, 0)?);
    assert!(rt; chooses_first(alloc, Rel::GreaterEqual, 5, 5)?);
    assert!(rt; !chooses_first(alloc, Rel::NotEqual, 5, 5)?);
    Ok(())
}

// Whether a statement copies the temporary 0.
fn copies_first(statement: &Ts) -> bool {
    matches!(statement, Ts::Move(_, Tx::Temp(Temp(0))))
}

// A chain of 20,000 copies, each of the one before: all come to be of the first.
#[test]
fn copies_go_through_a_long_body(rt: HostRuntime) -> Result<(), Fail> {
    let alloc = rt.alloc();
    let mut items = Vec::new(alloc);
    for i in 1..=20_000u32 {
        items.push(Ts::Move(Temp(i), Tx::Temp(Temp(i - 1))))?;
    }
    let Ts::Seq(folded) = fold(alloc, sequence(items))? else {
        return Err(Fail::from("no sequence"));
    };
    let copies = folded.items.iter().filter(|one| copies_first(one)).count();
    assert_eq!(rt; copies, 20_000);
    Ok(())
}
