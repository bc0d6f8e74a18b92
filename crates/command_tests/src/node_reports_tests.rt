//! The pages of texts.

use node_reports::page_of_text;
use operator_text::read_page;
use std::test::Fail;

/// A text of three lines is one page. Behind its lines there is nothing.
#[test]
fn three_lines_are_a_page(rt: HostRuntime) -> Result<(), Fail> {
    let text = b"a\n\nbc\n".as_slice();
    assert!(rt; page_of_text(text, 0).as_slice() == b"a\n\nbc\nend\n".as_slice());
    assert!(rt; page_of_text(text, 2).as_slice() == b"bc\nend\n".as_slice());
    assert!(rt; page_of_text(text, 3).as_slice() == b"end\n".as_slice());
    assert!(rt; page_of_text(text, u32::MAX).as_slice() == b"end\n".as_slice());
    Ok(())
}

/// Of three lines of 500 bytes two fit the first page. The second page has the third one.
#[test]
fn a_second_page_goes_on(rt: HostRuntime) -> Result<(), Fail> {
    let mut text = [b'a'; 1500];
    text[499] = b'\n';
    text[999] = b'\n';
    text[1499] = b'\n';
    let first = page_of_text(&text, 0);
    assert!(rt; read_page(&first) == Some((&text[..1000], Some(2))));
    let second = page_of_text(&text, 2);
    assert!(rt; read_page(&second) == Some((&text[1000..], None)));
    Ok(())
}
