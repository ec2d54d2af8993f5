use crate::calls::{Object, Outside, are_answered, call, is_answered};
use std::test::Fail;

// A status, a blank, the line on the error sink but for `tiger: ` and the newline, a `|`, the
// output, a `|`, and the assembly text that `exec` answers so.
static ENDS: [&str; 44] = [
    "0 ||main: jr $ra\n",
    "0 ||main: jr $ra",
    "0 ||main: jr $ra\r\n",
    "0 ||main: li $v0, 10\nsyscall\n",
    "7 ||main: li $a0, 7\nli $v0, 17\nsyscall\n",
    "255 ||main: li $a0, -1\nli $v0, 17\nsyscall\n",
    "44 ||main: li $a0, 300\nli $v0, 17\nsyscall\n",
    "7 |hi|.data\nm: .asciiz \"hi\"\n.text\nmain: la $a0, m\nli $v0, 4\nsyscall\n\
     li $a0, 7\nli $v0, 17\nsyscall\n",
    "0 |-5|main: li $a0, -5\nli $v0, 1\nsyscall\njr $ra\n",
    "0 |A|main: li $a0, 65\nli $v0, 11\nsyscall\njr $ra\n",
    "0 |x|main: li $v0, 12\nsyscall\naddu $a0, $v0, $zero\nli $v0, 11\nsyscall\njr $ra\n",
    "111 unaligned 0x00000002||.text\nmain: lw $t0, 2($zero)\n",
    "111 unaligned 0x10010001||.data\na: .word 5\n.text\nmain: la $t0, a\nlw $t1, 1($t0)\n",
    "111 bad address 0x00000000||main: lw $t0, 0($zero)\n",
    "111 bad address 0x7ffffffc||main: jr $sp\n",
    "111 bad address 0x00400004||main: nop\n",
    "111 bad address 0xfffffffc||main: lw $t0, -4($zero)\n",
    "111 bad service 0x00000005||main: li $v0, 5\nsyscall\n",
    "111 bad service 0xffffffff||main: li $v0, -1\nsyscall\n",
    "111 break 0||main: break 0\n",
    "111 break 1||main: break 1\n",
    "111 break 8||main: break 8\n",
    "111 break 9||main: break 9\n",
    "111 break 1048575||main: break 1048575\n",
    "101 nil||main: break 2\n",
    "102 index out of range||main: break 3\n",
    "103 division by zero||main: break 7\n",
    "104 chr out of range||main: break 4\n",
    "105 substring out of range||main: break 5\n",
    "106 negative size||main: break 6\n",
    "107 heap full||main: lui $a0, 0x7fff\nli $v0, 9\nsyscall\n",
    "108 stack full||main: lui $t0, 0x4000\nsw $t0, 0($t0)\n",
    "110 overflow||.text\nmain: lui $t0, 0x8000\naddi $t0, $t0, -1\n",
    "109 step limit||main: j main\n",
    "65 line 2: A4 label twice||main:\nmain:\n",
    "65 line 2: A1 bad line||.text\nmain: .word 1\n",
    "65 line 1: A2 unknown instruction||frob $t0\n",
    "65 line 2: A3 bad operand||main:\n add $t0, $t1\n",
    "65 line 1: A5 unknown label||main: j nowhere\n",
    "65 line 1: A7 number out of range||main: addi $t0, $t0, 32768\n",
    "65 line 3: A8 segment too large||.data\n.space 16711680\n.byte 1\n",
    "65 line 1: A9 no main||",
    "65 line 1: A9 no main||nop\n",
    "65 line 2: A7 number out of range||main: j nowhere\naddi $t0, $t0, 32768\n",
];

// `exec` with 1,000 steps.
static EXEC: &str = "tiger|exec|FILE|--steps|1000";

#[test]
fn texts_end_as_they_must(rt: HostRuntime) -> Result<(), Fail> {
    are_answered(&rt, rt.alloc(), EXEC, &ENDS)
}

#[test]
fn a_jump_to_itself_takes_all_steps(rt: HostRuntime) -> Result<(), Fail> {
    let row = "109 step limit||main: j main";
    are_answered(&rt, rt.alloc(), "tiger|exec|FILE|--steps|10", &[row])
}

#[test]
fn longest_text(rt: HostRuntime) -> Result<(), Fail> {
    let alloc = rt.alloc();
    let text = vec![in alloc; b'\n'; 67_108_865]?;
    let seen = call(alloc, EXEC, Outside::of(&text))?;
    is_answered(&rt, alloc, &seen, 65, "line 1: A10 file too long", "")
}

static ECHO: &str =
    "main: li $v0, 12\nsyscall\naddu $a0, $v0, $zero\nli $v0, 11\nsyscall\njr $ra\n";

#[test]
fn streams_of_texts(rt: HostRuntime) -> Result<(), Fail> {
    let alloc = rt.alloc();
    let failed = "read or write failed";
    let echo = Outside::of(ECHO.as_bytes());
    let seen = call(alloc, EXEC, echo)?;
    assert_eq!(rt; (seen.reads, seen.writes), (1, 1));
    let seen = call(
        alloc,
        EXEC,
        Outside {
            failing: Some((Object::Input, 1)),
            ..echo
        },
    )?;
    is_answered(&rt, alloc, &seen, 74, failed, "")?;
    let seen = call(alloc, EXEC, Outside { room: 0, ..echo })?;
    is_answered(&rt, alloc, &seen, 74, failed, "")?;
    for text in ["main: jr $ra\n", "main: j nowhere\n"] {
        let seen = call(alloc, EXEC, Outside::of(text.as_bytes()))?;
        assert_eq!(rt; (seen.reads, seen.writes), (0, 0));
    }
    Ok(())
}
