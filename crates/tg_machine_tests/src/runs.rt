ghost use Rattle.std.specs.Prelude.{◌<◌, length};
ghost use Rattle.std.specs.declared.option.Option.TheVariants.{None};
ghost use Rattle.std.specs.Io.{ReadsAtMost};
ghost use Rattle.std.specs.Io.KnownBytes.{ReadConsumes};
ghost use Rattle.tg_base.specs.Causes.{HasCause};

use std::alloc::Global;
use std::process::Abort;
use std::test::Fail;
use tg_asm::{AsmFault, assemble};
use tg_base::{Bytes, Failed, ListSource, PlainSource, RoomSink, Source, Words};
use tg_isa::Image;
use tg_machine::{Machine, RunEnd, Status, load};

/// How programs end on a machine with 16 bytes of heap and 64 of stack.
const ENDS: [&str; 48] = [
    "Exit(5)|main: li $a0, 5\nli $v0, 17\nsyscall",
    "Exit(0)|main: li $v0, 10\nsyscall",
    "Overflow|main: li $t0, 0x7fffffff\nli $t1, 1\nadd $t2, $t0, $t1",
    "BadAddress(4194308)|main: nop",
    "BadService(99)|main: li $v0, 99\nsyscall",
    "Break(1048575)|main: break 1048575",
    "Unaligned(2147483646)|main: lw $t0, 2($sp)",
    "Exit(77)|main: addiu $sp, $sp, -4\nli $t0, 77\nsw $t0, 0($sp)\n\
     lw $a0, 0($sp)\nli $v0, 17\nsyscall",
    "StackFull|main: addiu $sp, $sp, -68\nsw $t0, 0($sp)",
    "HeapFull|main: li $a0, 17\nli $v0, 9\nsyscall",
    "Exit(99)|main: li $a0, 13\nli $v0, 9\nsyscall\nli $t0, 99\n\
     sw $t0, 12($v0)\nlui $t1, 0x1100\nlw $a0, 12($t1)\nli $v0, 17\nsyscall",
    // quotients and bytes
    "Exit(-2147483648)|main: lui $t0, 0x8000\nli $t1, -1\ndiv $t0, $t1\nmflo $a0\n\
     li $v0, 17\nsyscall",
    "Exit(-3)|main: li $t0, -7\nli $t1, 4\ndiv $t0, $t1\ndiv $t0, $zero\n\
     mfhi $a0\nli $v0, 17\nsyscall",
    "Exit(-128)|.data\nm: .byte 1, 2\n.text\nmain: la $t0, m\nli $t1, 0x0180\n\
     sb $t1, 1($t0)\nlb $a0, 1($t0)\nli $v0, 17\nsyscall",
    "Exit(128)|main: li $t1, 0x0180\nsb $t1, -1($sp)\nlbu $a0, -1($sp)\nli $v0, 17\nsyscall",
    "Exit(67305985)|.data\nm: .byte 1, 2, 3, 4\n.text\nmain: la $t0, m\n\
     lw $a0, 0($t0)\nli $v0, 17\nsyscall",
    "Exit(3)|main: li $t1, 0x01020304\nsw $t1, -4($sp)\nlbu $a0, -3($sp)\nli $v0, 17\nsyscall",
    // jumps and branches
    "Exit(9)|main: jal f\nor $a0, $t0, $zero\nli $v0, 17\nsyscall\nf: li $t0, 9\njr $ra",
    "Exit(3)|main: li $t0, 3\na: addiu $a0, $a0, 1\naddi $t0, $t0, -1\n\
     bgtz $t0, a\nbltz $t0, a\nli $v0, 17\nsyscall",
    "Exit(0)|main: jr $ra",
    "Unaligned(2)|main: li $t0, 2\njr $t0",
    "BadAddress(4194300)|main: lui $t0, 0x003f\nori $t0, $t0, 0xfffc\njr $t0",
    "Unaligned(4194306)|main: lui $t0, 0x0040\nori $t0, $t0, 2\njr $t0",
    "BadAddress(4194316)|main: lui $t0, 0x0040\nori $t0, $t0, 12\njr $t0",
    "BadAddress(268500992)|main: lui $t0, 0x1001\nnop\njr $t0",
    "BadAddress(2147483640)|main: lui $t0, 0x7fff\nori $t0, $t0, 0xfff8\njr $t0",
    "BadAddress(4294967292)|main: li $t0, -4\njr $t0",
    "BadAddress(4)|main: li $t0, 4\njr $t0",
    "Unaligned(1)|main: li $t0, 1\njr $t0",
    // edges of the regions, where the statics are one word
    "BadAddress(4194304)|main: lui $t0, 0x0040\nlw $t1, 0($t0)",
    "BadAddress(268500988)|main: lui $t0, 0x1001\nlw $t1, -4($t0)",
    "Break(1)|.data\n.byte 7\n.text\nmain: lui $t0, 0x1001\nlw $t1, 0($t0)\nbreak 1",
    "Unaligned(268500993)|.data\n.byte 7\n.text\nmain: lui $t0, 0x1001\nlw $t1, 1($t0)",
    "BadAddress(268500996)|.data\n.byte 7\n.text\nmain: lui $t0, 0x1001\nlw $t1, 4($t0)",
    "BadAddress(285212672)|main: lui $t0, 0x1100\nlw $t1, 0($t0)",
    "BadAddress(1073741820)|main: lui $t0, 0x4000\nlw $t1, -4($t0)",
    "StackFull|main: lui $t0, 0x4000\nlw $t1, 0($t0)",
    "StackFull|main: lw $t1, -68($sp)",
    "Break(1)|main: lw $t1, -64($sp)\nbreak 1",
    "Break(1)|main: lw $t1, -4($sp)\nbreak 1",
    "BadAddress(2147483644)|main: lw $t1, 0($sp)",
    "BadAddress(4294967292)|main: lw $t1, -4($zero)",
    // register 0, signs, links
    "Exit(0)|main: li $zero, 5\nor $a0, $zero, $zero\nli $v0, 17\nsyscall",
    "Exit(1)|main: li $t0, 5\nsltiu $a0, $t0, -1\nli $v0, 17\nsyscall",
    "Exit(0)|main: li $t0, 5\nslti $a0, $t0, -1\nli $v0, 17\nsyscall",
    "Exit(65535)|main: li $t0, -1\nandi $a0, $t0, 0xffff\nli $v0, 17\nsyscall",
    "Exit(4194316)|main: la $t0, f\njalr $a0, $t0\nf: li $v0, 17\nsyscall",
    "StepLimit|main: j main",
];

/// A sink with so much room, whose calls of these numbers fail.
fn sink(alloc: Global, room: usize, fails: &[u64]) -> Result<Box<RoomSink>, Fail> {
    let fails = fails.to_vec(alloc)?;
    Ok(Box::new(alloc, RoomSink::new(alloc, room, fails)?)?)
}

/// A machine with an image, 16 bytes of heap and 64 of stack. In a box, as sinks are here, which a
/// check lets go by a call.
fn machine(rt: &impl Abort, alloc: Global, image: &Image) -> Result<Box<Machine>, Fail> {
    assert!(rt; image.code.as_slice().len() <= 100 && image.statics.as_slice().len() <= 100);
    Ok(Box::new(alloc, load(alloc, image, 16, 64)?)?)
}

/// A machine with the program of a text.
fn program(rt: &impl Abort, alloc: Global, text: &str) -> Result<Box<Machine>, Fail> {
    match assemble(alloc, text.as_bytes()) {
        Ok(image) => machine(rt, alloc, &image),
        Err(AsmFault::Bad { .. }) => Err("a fault")?,
        Err(AsmFault::Memory) => Err("memory")?,
    }
}

/// How the program of a text ends, as it is shown.
fn end_of(rt: &impl Abort, alloc: Global, text: &str) -> Result<String, Fail> {
    let mut input = PlainSource::new(Vec::new(alloc));
    let mut out = sink(alloc, 0, &[])?;
    let end = program(rt, alloc, text)?.run(&mut input, &mut *out, 20);
    Ok(format!(in alloc; "{end:?}")?)
}

#[test]
fn ends(rt: HostRuntime) -> Result<(), Fail> {
    for row in ENDS {
        let (want, text) = row.split_once('|').ok_or("a row without its text")?;
        let shown = end_of(&rt, rt.alloc(), text)?;
        assert_eq!(rt; shown.as_str(), want, "{text}");
    }
    Ok(())
}

/// A program that writes `A`, `-42` and the text in the statics.
const WRITER: &str =
    ".data\nm: .ascii \"ok\"\n.text\nmain: li $a0, 65\nli $v0, 11\nsyscall\nli $a0, -42\n\
li $v0, 1\nsyscall\nlui $a0, 0x1001\nli $v0, 4\nsyscall\nli $v0, 10\nsyscall";

/// Runs the writer into a sink, again and again, and gives how many bytes it wrote.
fn written(
    rt: &impl Abort,
    alloc: Global,
    out: &mut RoomSink,
    ends: &[RunEnd],
) -> Result<u64, Fail> {
    let mut run = program(rt, alloc, WRITER)?;
    let mut input = PlainSource::new(Vec::new(alloc));
    for want in ends {
        assert_eq!(rt; run.run(&mut input, out, 20), *want);
    }
    Ok(run.written())
}

#[test]
fn writes(rt: HostRuntime) -> Result<(), Fail> {
    let alloc = rt.alloc();
    let mut out = sink(alloc, 100, &[])?;
    let count = written(&rt, alloc, &mut *out, &[RunEnd::Exit(0)])?;
    assert_eq!(rt; (out.taken(), count), (b"A-42ok".as_slice(), 6));
    Ok(())
}

#[test]
fn writes_until_a_write_fails(rt: HostRuntime) -> Result<(), Fail> {
    let alloc = rt.alloc();
    let mut out = sink(alloc, 100, &[2])?;
    let count = written(
        &rt,
        alloc,
        &mut *out,
        &[RunEnd::WriteFault, RunEnd::WriteFault],
    )?;
    assert_eq!(rt; (out.calls(), count), (2, 1));
    assert_eq!(rt; out.taken(), b"A".as_slice());
    Ok(())
}

/// A program that reads twice and exits with the last answer.
const READER: &str =
    "main: li $v0, 12\nsyscall\nli $v0, 12\nsyscall\nmove $a0, $v0\nli $v0, 17\nsyscall";

/// Runs the reader to its end, and then asks it again.
fn read_and_ask(
    rt: &impl Abort,
    alloc: Global,
    input: &mut ListSource,
    out: &mut RoomSink,
    want: RunEnd,
) -> Result<(), Fail> {
    let mut run = program(rt, alloc, READER)?;
    assert_eq!(rt; run.run(input, out, 20), want);
    assert_eq!(rt; run.run(input, out, 20), want);
    assert_eq!(rt; run.step(input, out), Status::Ended(want));
    Ok(())
}

#[test]
fn reads(rt: HostRuntime) -> Result<(), Fail> {
    let alloc = rt.alloc();
    let mut out = sink(alloc, 0, &[])?;
    let bytes = [6, 7, 8].as_slice().to_vec(alloc)?;
    let mut input = ListSource::new(bytes, [5].as_slice().to_vec(alloc)?);
    for want in [RunEnd::Exit(7), RunEnd::Exit(-1), RunEnd::ReadFault] {
        read_and_ask(&rt, alloc, &mut input, &mut *out, want)?;
    }
    assert_eq!(rt; input.calls(), 5);
    Ok(())
}

/// A terminal, which says the end and then gives bytes.
#[derive(Drop)]
struct Terminal {
    calls: u32,
}

impl Source for Terminal {
    ghost left = { λ _. None };

    ghost faults = { λ _. 0 };

    fn read(&mut self, into: &mut [u8]) -> Result<usize, Failed>
        requires { 0 < length into.old }
        ensures bound { ReadsAtMost result into.new }
        ensures bytes { ReadConsumes None None result into.new }
        ensures cause { HasCause 0 0 result }
    {
        self.calls = self.calls.saturating_add(1);
        if self.calls == 1 {
            return Ok(0);
        }
        into[0] = 65;
        Ok(1)
    }
}

#[test]
fn asks_no_more_after_the_end(rt: HostRuntime) -> Result<(), Fail> {
    let alloc = rt.alloc();
    let mut input = Terminal { calls: 0 };
    let mut out = sink(alloc, 0, &[])?;
    let mut run = program(&rt, alloc, READER)?;
    assert_eq!(rt; run.run(&mut input, &mut *out, 2), RunEnd::StepLimit);
    assert_eq!(rt; run.run(&mut input, &mut *out, 20), RunEnd::Exit(-1));
    assert_eq!(rt; input.calls, 1);
    Ok(())
}

#[test]
fn stops_and_goes_on(rt: HostRuntime) -> Result<(), Fail> {
    let alloc = rt.alloc();
    let mut input = PlainSource::new(Vec::new(alloc));
    let mut out = sink(alloc, 0, &[])?;
    let mut run = program(&rt, alloc, "main: li $a0, 5\nli $v0, 17\nsyscall")?;
    assert_eq!(rt; run.run(&mut input, &mut *out, 2), RunEnd::StepLimit);
    assert_eq!(rt; run.run(&mut input, &mut *out, 1), RunEnd::Exit(5));
    Ok(())
}

/// An image of 50 words from a seed, by a congruence (Numerical Recipes).
fn random_image(alloc: Global, seed: u32) -> Result<Image, Fail> {
    let mut words = Vec::new(alloc);
    let mut state = seed;
    for _ in 0..50 {
        state = state.wrapping_mul(1_664_525).wrapping_add(1_013_904_223);
        words.push(state)?;
    }
    Ok(Image {
        code: Words::from_vec(words),
        statics: Bytes::from_vec(Vec::new(alloc)),
        entry: 0x0040_0000,
    })
}

/// Runs the image of a seed to its end, and then asks it again.
fn run_and_ask(rt: &impl Abort, alloc: Global, seed: u32) -> Result<(), Fail> {
    let mut run = machine(rt, alloc, &random_image(alloc, seed)?)?;
    let mut input = PlainSource::new(Vec::new(alloc));
    let mut out = sink(alloc, 64, &[])?;
    let end = run.run(&mut input, &mut *out, 1000);
    if end != RunEnd::StepLimit {
        assert_eq!(rt; run.run(&mut input, &mut *out, 1000), end);
    }
    Ok(())
}

#[test]
fn random_words_as_code(rt: HostRuntime) -> Result<(), Fail> {
    for seed in 0..200 {
        run_and_ask(&rt, rt.alloc(), seed)?;
    }
    Ok(())
}
