use n2_text::{
    Bounded, Items, Text, hex_word, numeral, numeral_up_to, put_number, put_numbered, put_text,
    put_word,
};
use std::test::Fail;

#[test]
fn reads_words_and_numbers(rt: HostRuntime) {
    assert_eq!(rt;
        [
            numeral(b"0"),
            numeral(b"01"),
            numeral(b"18446744073709551615"),
            numeral(b"18446744073709551616"),
            numeral_up_to(1_000_000, b"1000000"),
            numeral_up_to(1_000_000, b"1000001"),
        ],
        [Some(0), None, Some(u64::MAX), None, Some(1_000_000), None]
    );
    assert_eq!(rt;
        [hex_word(b"0089abef"), hex_word(b"0089ABEF")],
        [Some(0x0089_abef), None]
    );
}

#[test]
fn writes_words_and_numbers(rt: HostRuntime) -> Result<(), Fail> {
    let mut out = Vec::new(rt.alloc());
    put_word(&mut out, 0x0089_abef)?;
    put_text(&mut out, b" ")?;
    put_number(&mut out, 18_446_744_073_709_551_615)?;
    put_numbered(&mut out, b" cut ", 52)?;
    assert_eq!(rt;
        out.as_slice(),
        b"0089abef 18446744073709551615 cut 52".as_slice()
    );
    Ok(())
}

#[test]
fn keeps_texts(rt: HostRuntime) -> Result<(), Fail> {
    let text = Text::from_str(rt.alloc(), "u0")?;
    assert_eq!(rt; text.copy(rt.alloc())?.as_str(), "u0");
    assert_eq!(rt; text.into_string().as_str(), "u0");
    Ok(())
}

#[test]
fn gives_the_bytes_of_texts(rt: HostRuntime) -> Result<(), Fail> {
    let text = Text::new("m0".to_string(rt.alloc())?);
    assert_eq!(rt; text.as_bytes(), b"m0".as_slice());
    Ok(())
}

#[test]
fn keeps_lists(rt: HostRuntime) -> Result<(), Fail> {
    let mut items = Items::new(rt.alloc());
    items.push(3u32)?;
    assert_eq!(rt; items.len(), 1);
    let copy = Items::from_vec(items.copy(rt.alloc())?.into_vec());
    assert_eq!(rt; copy.as_slice(), [3].as_slice());
    Ok(())
}

#[test]
fn makes_lists_of_slices(rt: HostRuntime) -> Result<(), Fail> {
    let items = Items::from_slice(rt.alloc(), b"hi")?;
    assert_eq!(rt; items.as_slice(), b"hi".as_slice());
    Ok(())
}

#[test]
fn keeps_lists_with_room(rt: HostRuntime) -> Result<(), Fail> {
    let mut bounded = Bounded::with_room(rt.alloc(), 2)?;
    bounded.push(3u32);
    bounded.push(4);
    assert_eq!(rt;
        (bounded.len(), bounded.room(), bounded.as_slice()),
        (2, 2, [3, 4].as_slice())
    );
    assert_eq!(rt; bounded.into_items().len(), 2);
    Ok(())
}
