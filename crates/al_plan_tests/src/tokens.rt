use al_read::{MAX_PLAN, Placed, Token, TokensRefused, one_reading, read_tokens};
use al_value::List;
use std::alloc::Global;
use std::process::Abort;
use std::test::Fail;

/// The token as its kind and its text.
fn shown(token: &Token) -> (char, &str) {
    match token {
        Token::Open => ('(', ""),
        Token::Close => (')', ""),
        Token::Name(name) => ('n', name.as_str()),
        Token::Var(name) => ('v', name.as_str()),
        Token::Number(number) => ('i', number.as_str()),
        Token::Str(text) => ('s', text.as_str()),
    }
}

fn assert_tokens(
    rt: &impl Abort,
    read: Result<List<Placed>, TokensRefused>,
    wanted: &[(char, &str, u32)],
) -> Result<(), Fail> {
    let tokens = read?;
    assert_eq!(rt; tokens.len(), wanted.len());
    for (placed, (kind, text, place)) in tokens.as_slice().iter().zip(wanted) {
        let (own_kind, own_text) = shown(&placed.token);
        assert_eq!(rt; own_kind, *kind);
        assert_eq!(rt; own_text, *text);
        assert_eq!(rt; placed.place, *place);
    }
    Ok(())
}

#[test]
fn reads_each_kind(rt: HostRuntime) -> Result<(), Fail> {
    let text = b"(algebricks\t1 $a_1 -07)\r\n; a comment (\n\"x\\\"\\\\\\n\\t\\r;\";end";
    assert_tokens(
        &rt,
        read_tokens(rt.alloc(), text),
        &[
            ('(', "", 0),
            ('n', "algebricks", 1),
            ('i', "1", 12),
            ('v', "a_1", 14),
            ('i', "-07", 19),
            (')', "", 22),
            ('s', "x\"\\\n\t\r;", 39),
        ],
    )?;
    assert_tokens(&rt, read_tokens(rt.alloc(), b""), &[])?;
    // A CR alone ends no comment.
    assert_tokens(&rt, read_tokens(rt.alloc(), b"; a\rb"), &[])?;
    // A string ends at its closing quote.
    assert_tokens(
        &rt,
        read_tokens(rt.alloc(), b"\"a\"b"),
        &[('s', "a", 0), ('n', "b", 3)],
    )
}

#[test]
fn refuses_pieces(rt: HostRuntime) {
    let rows: [(&[u8], u32); 10] = [
        (b"( a$b )", 2),
        (b"1a", 0),
        (b"-", 0),
        (b"a $", 2),
        (b"$1", 0),
        (b"a \"b", 2),
        (b"a \"\\x\"", 2),
        (b"\"a\nb\"", 0),
        (b"x ; y\n ' z", 7),
        (b"\"a\" \xc3\xa9", 4),
    ];
    for (text, place) in rows {
        assert_eq!(rt;
            read_tokens(rt.alloc(), text).err(),
            Some(TokensRefused::Token(place))
        );
    }
    one_reading();
}

#[test]
fn refuses_texts(rt: HostRuntime) {
    assert_eq!(rt;
        read_tokens(rt.alloc(), b"a ' \xc3(").err(),
        Some(TokensRefused::Utf8(4))
    );
    assert_eq!(rt;
        read_tokens(rt.alloc(), b"\xff").err(),
        Some(TokensRefused::Utf8(0))
    );
}

fn names_of(alloc: Global, len: usize) -> Result<Vec<u8>, Fail> {
    let mut text = Vec::new(alloc);
    for _ in 0..len {
        text.push(b'a')?;
    }
    Ok(text)
}

#[test]
fn keeps_the_limits(rt: HostRuntime) -> Result<(), Fail> {
    let longest = names_of(rt.alloc(), 64)?;
    assert!(rt; read_tokens(rt.alloc(), &longest).is_ok());
    let longer = names_of(rt.alloc(), 65)?;
    assert_eq!(rt;
        read_tokens(rt.alloc(), &longer).err(),
        Some(TokensRefused::Token(0))
    );
    let whole = names_of(rt.alloc(), MAX_PLAN)?;
    assert_eq!(rt;
        read_tokens(rt.alloc(), &whole).err(),
        Some(TokensRefused::Token(0))
    );
    let large = names_of(rt.alloc(), MAX_PLAN + 1)?;
    assert_eq!(rt;
        read_tokens(rt.alloc(), &large).err(),
        Some(TokensRefused::TooLarge)
    );
    Ok(())
}
