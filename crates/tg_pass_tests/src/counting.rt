use crate::reading::program_of;
use std::test::Fail;
use tg_syntax::{nodes, program_nodes};

// A program, the nodes of its body, and those of all its bodies.
static COUNTS: [(&str, u32, u32); 10] = [
    ("exit(2*-(3+4)+300)", 10, 10),
    ("()", 1, 1),
    ("f(a, ())", 4, 4),
    ("(\"\"; break; a := 1; a.f; a[1])", 13, 13),
    (
        "(if 1 then 2; if 1 then 2 else 3; while 1 do 2; for i := 1 to 2 do 3; t[1] of 2)",
        18,
        18,
    ),
    ("r{x = 1}", 3, 3),
    ("let type t = array of int type u = t in end", 5, 5),
    (
        "let type r = {x: int, y: int} var p: r := nil function f(n: int): int = (3+4) in end",
        9,
        13,
    ),
    (
        "let function a() = let function b() = 1 in b() end in a() end",
        3,
        7,
    ),
    ("while let function a(n: int) = () in 1 end do nil", 6, 7),
];

#[test]
fn nodes_are_counted(rt: HostRuntime) -> Result<(), Fail> {
    for (text, own, all) in COUNTS {
        let program = program_of(rt.alloc(), text)?;
        assert_eq!(rt; nodes(&program.body), own, "{text}");
        assert_eq!(rt; program_nodes(&program), all, "{text}");
    }
    Ok(())
}
