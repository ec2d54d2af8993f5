use crate::reading::program_of;
use std::alloc::Global;
use std::test::Fail;
use tg_base::Memory;
use tg_syntax::{Dec, Kind};

// An expression, and the byte of the operator that binds least, which is its tree's.
static OPERATORS: [(&str, u32); 10] = [
    ("a-b-c", 3),
    ("a-b*c", 1),
    ("a*b-c", 3),
    ("a/b*c", 3),
    ("a|b&c|d", 5),
    ("a&b=c", 1),
    ("a+b<=c-d", 3),
    ("-a*b", 2),
    ("1+if a then b else c+d", 1),
    ("(a+b)*c", 5),
];

#[test]
fn operators_bind_by_their_ranks(rt: HostRuntime) -> Result<(), Fail> {
    for (text, at) in OPERATORS {
        let program = program_of(rt.alloc(), text)?;
        let Kind::Binary(_, found, _, _) = &program.body.kind else {
            return Err(Fail::from("no operator"));
        };
        assert_eq!(rt; *found, at, "{text}");
    }
    Ok(())
}

#[test]
fn an_else_is_the_nearest_one(rt: HostRuntime) -> Result<(), Fail> {
    let program = program_of(rt.alloc(), "if 1 then if 0 then a else b")?;
    let Kind::If(_, inner, None) = &program.body.kind else {
        return Err(Fail::from("an else of the outer one"));
    };
    assert_eq!(rt; (inner.span.from, inner.span.to), (10, 28));
    Ok(())
}

// The number of types, or of functions, in each group; 0 for a variable.
fn group_sizes(alloc: Global, decs: &[Dec]) -> Result<Vec<usize>, Memory> {
    let mut sizes = Vec::new(alloc);
    for dec in decs {
        sizes.push(match dec {
            Dec::Types(types) => types.as_slice().len(),
            Dec::Variable(_, _, _) => 0,
            Dec::Functions(functions) => functions.items.len(),
        })?;
    }
    Ok(sizes)
}

#[test]
fn neighbours_of_a_kind_are_one_group(rt: HostRuntime) -> Result<(), Fail> {
    let text = "let type a=b type c={d:e} type f=array of a var g:=1 function h()=2 \
        function i(a:b):c=3 var j:a:=4 function k()=5 in end";
    let program = program_of(rt.alloc(), text)?;
    let Kind::Let(decs, body) = &program.body.kind else {
        return Err(Fail::from("no let"));
    };
    let sizes = group_sizes(rt.alloc(), &decs.items)?;
    assert_eq!(rt; sizes.as_slice(), [3, 0, 2, 0, 1].as_slice());
    assert_eq!(rt; body.items.len(), 0);
    Ok(())
}

// A text so many times between two others.
fn repeated(
    alloc: Global,
    before: &str,
    text: &str,
    times: u32,
    after: &str,
) -> Result<String, Memory> {
    let mut whole = String::new(alloc);
    whole.push_str(before)?;
    for _time in 0..times {
        whole.push_str(text)?;
    }
    whole.push_str(after)?;
    Ok(whole)
}

#[test]
fn long_lists_are_read_and_dropped(rt: HostRuntime) -> Result<(), Fail> {
    let alloc = rt.alloc();
    let sequence = repeated(alloc, "(0", ";0", 100_000, ")")?;
    let program = program_of(alloc, &sequence)?;
    let Kind::Seq(items) = &program.body.kind else {
        return Err(Fail::from("no sequence"));
    };
    assert_eq!(rt; items.items.len(), 100_001);
    let chain = repeated(alloc, "let ", "var a:=0 type b=c ", 14_000, "in end")?;
    let program = program_of(alloc, &chain)?;
    let Kind::Let(decs, _) = &program.body.kind else {
        return Err(Fail::from("no let"));
    };
    assert_eq!(rt; decs.items.len(), 28_000);
    Ok(())
}
