use crate::calls::{Outside, are_answered, call};
use std::test::Fail;

// A status, a blank, the line on the error sink but for `tiger: ` and the newline, a `|`, the
// output, a `|`, and the assembly text that `exec` answers so with delayed branches.
static DELAYED: [&str; 10] = [
    "7 ||.text\nmain: li $v0, 17\nj e\nli $a0, 7\nli $a0, 9\ne: syscall",
    "111 bad word 0x08100000||main: j main\nj main",
    "2 ||main: beq $zero, $zero, s\ns: addiu $a0, $a0, 1\nli $v0, 17\nsyscall",
    "8 ||main: jal f\nnop\nf: andi $a0, $ra, 0xff\nli $v0, 17\nsyscall",
    "16 ||main: li $t0, 0x00400014\njalr $t1, $t0\naddiu $a0, $t1, 0\nbreak 9\n\
     andi $a0, $a0, 0xff\nli $v0, 17\nsyscall",
    "111 bad word 0x1000fffe||main: bne $zero, $zero, main\nbeq $zero, $zero, main",
    "111 bad address 0x00400004||main: jr $ra",
    "0 ||main: jr $ra\nli $a0, 5",
    "111 bad service 0x00000000||main: j e\nsyscall\ne: nop",
    "0 |x|main: li $v0, 12\nsyscall\naddu $a0, $v0, $zero\nli $v0, 11\nsyscall\njr $ra\nnop",
];

// Such rows for most of these texts, without.
static PLAIN: [&str; 9] = [
    "0 ||.text\nmain: li $v0, 17\nj e\nli $a0, 7\nli $a0, 9\ne: syscall",
    "109 step limit||main: j main\nj main",
    "1 ||main: beq $zero, $zero, s\ns: addiu $a0, $a0, 1\nli $v0, 17\nsyscall",
    "4 ||main: jal f\nnop\nf: andi $a0, $ra, 0xff\nli $v0, 17\nsyscall",
    "0 ||main: li $t0, 0x00400014\njalr $t1, $t0\naddiu $a0, $t1, 0\nbreak 9\n\
     andi $a0, $a0, 0xff\nli $v0, 17\nsyscall",
    "109 step limit||main: bne $zero, $zero, main\nbeq $zero, $zero, main",
    "0 ||main: jr $ra",
    "0 ||main: jr $ra\nli $a0, 5",
    "111 bad address 0x0040000c||main: j e\nsyscall\ne: nop",
];

#[test]
fn delay_slots_are_done_by_the_flag(rt: HostRuntime) -> Result<(), Fail> {
    let alloc = rt.alloc();
    are_answered(&rt, alloc, "tiger|exec|FILE|--bare|--steps|1000", &DELAYED)?;
    are_answered(&rt, alloc, "tiger|exec|FILE|--steps|1000", &PLAIN)
}

// With a mode that runs no assembly text, and beside `--watch`, the flag is no word of the command.
#[test]
fn other_commands_have_no_delay_slots(rt: HostRuntime) -> Result<(), Fail> {
    let alloc = rt.alloc();
    for line in [
        "tiger|run|FILE|--bare",
        "tiger|build|--bare|FILE",
        "tiger|check|FILE|--bare",
        "tiger|gen|3|--bare",
        "tiger|format|FILE|--bare",
        "tiger|bare|FILE|--bare",
        "tiger|exec|FILE|--bare|--watch",
        "tiger|exec|--watch|--bare|FILE",
        "tiger|exec|FILE|--bare|--bare",
        "tiger|exec|FILE|--bare=1",
        "tiger|exec|FILE|--bare=true",
        "tiger|exec|FILE|--bar",
    ] {
        let seen = call(alloc, line, Outside::of(b"main: jr $ra"))?;
        assert_eq!(rt;
            (seen.status, seen.files_asked, seen.writes),
            (64, 0, 0),
            "{line}"
        );
        assert!(rt; seen.error.ends_with(b" [--fold] [--bare]\n"), "{line}");
    }
    Ok(())
}
