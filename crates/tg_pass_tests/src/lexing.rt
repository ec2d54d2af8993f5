use std::test::Fail;
use tg_base::Names;
use tg_lexer::lex;
use tg_syntax::Token;

// Where the tokens of the text below begin and end, and the numbers that they carry.
static TOKENS: [(u32, u32, Option<u32>); 11] = [
    (0, 1, Some(1)),
    (1, 3, None),
    (3, 5, None),
    (5, 7, None),
    (7, 12, Some(2)),
    (21, 22, Some(0)),
    (22, 23, None),
    (23, 24, None),
    (24, 38, Some(3)),
    (38, 48, Some(2147483647)),
    (48, 48, None),
];

// The number of a name, an int, or how many bytes a string means.
fn number(token: &Token) -> Option<u32> {
    match token {
        Token::Ident(name) => Some(name.0),
        Token::Int(value) => Some(*value),
        Token::Text(bytes) => u32::try_from(bytes.as_slice().len()).ok(),
        Token::Word(_) | Token::Sign(_) | Token::End => None,
    }
}

#[test]
fn tokens_are_as_long_as_possible(rt: HostRuntime) -> Result<(), Fail> {
    let text = b"b:=if<>ifs_9/*\xff/**/*/a*/\"\\065\\^a\\ \n\\\xff\"2147483647";
    let mut names = Box::new(rt.alloc(), Names::new(rt.alloc()))?;
    names.intern("a")?;
    let tokens = lex(rt.alloc(), text, &mut *names)?;
    assert_eq!(rt; tokens.len(), TOKENS.len());
    for (token, want) in tokens.iter().zip(TOKENS) {
        let span = token.span;
        assert_eq!(rt; (span.from, span.to, number(&token.token)), want);
    }
    Ok(())
}
