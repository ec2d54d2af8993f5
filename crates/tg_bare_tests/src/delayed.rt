use std::alloc::Global;
use std::process::Abort;
use std::test::Fail;
use tg_asm::{AsmFault, assemble};
use tg_bare::{BareMachine, load_bare};
use tg_base::{Bytes, PlainSource, RoomSink, Words};
use tg_isa::Image;
use tg_machine::{RunEnd, load};

/// How programs end, with delayed branches and without, on 16 bytes of heap and 64 of stack.
const ENDS: [&str; 17] = [
    "Exit(7)|Exit(0)|.text\nmain: li $v0, 17\nj e\nli $a0, 7\nli $a0, 9\ne: syscall",
    "BadWord(135266304)|StepLimit|main: j main\nj main",
    // a branch to its own delay slot, which is done twice
    "Exit(2)|Exit(1)|main: beq $zero, $zero, s\ns: addiu $a0, $a0, 1\nli $v0, 17\nsyscall",
    // the word that a call leaves
    "Exit(8)|Exit(4)|main: jal f\nnop\nf: andi $a0, $ra, 0xff\nli $v0, 17\nsyscall",
    "Exit(16)|Exit(0)|main: li $t0, 0x00400014\njalr $t1, $t0\naddiu $a0, $t1, 0\nbreak 9\n\
     andi $a0, $a0, 0xff\nli $v0, 17\nsyscall",
    // behind a branch that isn't taken is a delay slot too
    "BadWord(268500990)|StepLimit|main: bne $zero, $zero, main\nbeq $zero, $zero, main",
    "Exit(3)|Exit(3)|main: bne $zero, $zero, e\nli $a0, 3\nli $v0, 17\nsyscall\ne: break 1",
    // a delay slot behind the code, and one in it
    "BadAddress(4194308)|Exit(0)|main: jr $ra",
    "Exit(0)|Exit(0)|main: jr $ra\nli $a0, 5",
    "BadService(0)|BadAddress(4194316)|main: j e\nsyscall\ne: nop",
    // the row behind a delay slot may control again
    "Exit(6)|Exit(0)|main: li $v0, 17\nj a\naddiu $a0, $a0, 1\na: j b\naddiu $a0, $a0, 2\n\
     b: beq $zero, $zero, c\naddiu $a0, $a0, 3\nc: syscall",
    // the delay slot is done before the run goes wrong at the target
    "Unaligned(2147483645)|Unaligned(13)|main: li $t0, 13\njr $t0\nlw $t1, 1($sp)",
    "Unaligned(13)|Unaligned(13)|main: li $t0, 13\njr $t0\nnop",
    // each branch, taken and not
    "Exit(7)|Exit(0)|main: li $v0, 17\nli $t0, -1\nblez $t0, a\naddiu $a0, $a0, 1\n\
     a: bltz $t0, b\naddiu $a0, $a0, 2\nb: bgez $zero, c\naddiu $a0, $a0, 4\nc: syscall",
    "Exit(7)|Exit(7)|main: li $v0, 17\nli $t0, 1\nblez $t0, e\naddiu $a0, $a0, 1\n\
     bltz $t0, e\naddiu $a0, $a0, 2\nbgtz $zero, e\naddiu $a0, $a0, 4\nsyscall\ne: break 1",
    "Exit(5)|Exit(0)|main: li $v0, 17\nli $t0, 1\nbgtz $t0, a\naddiu $a0, $a0, 1\n\
     a: bne $t0, $zero, b\naddiu $a0, $a0, 4\nb: syscall",
    // a loop that counts in its delay slot
    "Exit(4)|Exit(1)|main: li $v0, 17\nli $t0, 3\na: addi $t0, $t0, -1\nbgez $t0, a\n\
     addiu $a0, $a0, 1\nsyscall",
];

/// The image of a text.
fn image_of(alloc: Global, text: &str) -> Result<Image, Fail> {
    match assemble(alloc, text.as_bytes()) {
        Ok(image) => Ok(image),
        Err(AsmFault::Bad { .. }) => Err("a fault")?,
        Err(AsmFault::Memory) => Err("memory")?,
    }
}

/// A sink with so much room. In a box, as machines are here, which a check lets go by a call.
fn sink(alloc: Global, room: usize) -> Result<Box<RoomSink>, Fail> {
    Ok(Box::new(alloc, RoomSink::new(alloc, room, Vec::new(alloc))?)?)
}

/// A machine with delayed branches and an image, 16 bytes of heap and 64 of stack.
fn machine(rt: &impl Abort, alloc: Global, image: &Image) -> Result<Box<BareMachine>, Fail> {
    assert!(rt; image.code.as_slice().len() <= 100 && image.statics.as_slice().len() <= 100);
    Ok(Box::new(alloc, load_bare(alloc, image, 16, 64)?)?)
}

/// How the program of a text ends with delayed branches, as it is shown.
fn delayed_end(rt: &impl Abort, alloc: Global, text: &str) -> Result<String, Fail> {
    let mut input = PlainSource::new(Vec::new(alloc));
    let mut out = sink(alloc, 0)?;
    let end = machine(rt, alloc, &image_of(alloc, text)?)?.run(&mut input, &mut *out, 100);
    Ok(format!(in alloc; "{end:?}")?)
}

/// How it ends without.
fn plain_end(rt: &impl Abort, alloc: Global, text: &str) -> Result<String, Fail> {
    let image = image_of(alloc, text)?;
    assert!(rt; image.code.as_slice().len() <= 100 && image.statics.as_slice().len() <= 100);
    let mut input = PlainSource::new(Vec::new(alloc));
    let mut out = sink(alloc, 0)?;
    let mut run = Box::new(alloc, load(alloc, &image, 16, 64)?)?;
    let end = run.run(&mut input, &mut *out, 100);
    Ok(format!(in alloc; "{end:?}")?)
}

#[test]
fn ends(rt: HostRuntime) -> Result<(), Fail> {
    for row in ENDS {
        let (delayed, rest) = row.split_once('|').ok_or("a row without its ends")?;
        let (plain, text) = rest.split_once('|').ok_or("a row without its text")?;
        let shown = delayed_end(&rt, rt.alloc(), text)?;
        assert_eq!(rt; shown.as_str(), delayed, "{text}");
        let shown = plain_end(&rt, rt.alloc(), text)?;
        assert_eq!(rt; shown.as_str(), plain, "without: {text}");
    }
    Ok(())
}

/// A program that writes `A` in a delay slot, reads a byte in another and exits with it.
const IN_SLOTS: &str =
    "main: li $a0, 65\nli $v0, 11\nj a\nsyscall\na: li $v0, 12\njal b\nsyscall\nbreak 1\n\
b: or $a0, $v0, $zero\nli $v0, 17\nsyscall";

#[test]
fn services_in_delay_slots(rt: HostRuntime) -> Result<(), Fail> {
    let alloc = rt.alloc();
    let mut input = PlainSource::new([9].as_slice().to_vec(alloc)?);
    let mut out = sink(alloc, 8)?;
    let mut run = machine(&rt, alloc, &image_of(alloc, IN_SLOTS)?)?;
    assert_eq!(rt; run.run(&mut input, &mut *out, 100), RunEnd::Exit(9));
    assert_eq!(rt; (out.taken(), run.written()), (b"A".as_slice(), 1));
    Ok(())
}

#[test]
fn stops_between_a_branch_and_its_slot(rt: HostRuntime) -> Result<(), Fail> {
    let alloc = rt.alloc();
    let mut input = PlainSource::new([9].as_slice().to_vec(alloc)?);
    let mut out = sink(alloc, 8)?;
    let mut run = machine(&rt, alloc, &image_of(alloc, IN_SLOTS)?)?;
    for _ in 0..9 {
        assert_eq!(rt; run.run(&mut input, &mut *out, 1), RunEnd::StepLimit);
    }
    assert_eq!(rt; run.run(&mut input, &mut *out, 1), RunEnd::Exit(9));
    assert_eq!(rt; run.run(&mut input, &mut *out, 1), RunEnd::Exit(9));
    Ok(())
}

/// An image of 50 words from a seed, by a congruence (Numerical Recipes).
fn random_image(alloc: Global, seed: u32) -> Result<Image, Fail> {
    let mut words = Vec::new(alloc);
    let mut state = seed;
    for _ in 0..50 {
        state = state.wrapping_mul(1_664_525).wrapping_add(1_013_904_223);
        words.push(state)?;
    }
    Ok(Image {
        code: Words::from_vec(words),
        statics: Bytes::from_vec(Vec::new(alloc)),
        entry: 0x0040_0000,
    })
}

/// Runs the image of a seed to its end, and then asks it again.
fn run_and_ask(rt: &impl Abort, alloc: Global, seed: u32) -> Result<(), Fail> {
    let mut run = machine(rt, alloc, &random_image(alloc, seed)?)?;
    let mut input = PlainSource::new(Vec::new(alloc));
    let mut out = sink(alloc, 64)?;
    let end = run.run(&mut input, &mut *out, 1000);
    if end != RunEnd::StepLimit {
        assert_eq!(rt; run.run(&mut input, &mut *out, 1000), end);
    }
    Ok(())
}

#[test]
fn random_words_as_code(rt: HostRuntime) -> Result<(), Fail> {
    for seed in 0..200 {
        run_and_ask(&rt, rt.alloc(), seed)?;
    }
    Ok(())
}
