//! The pages of a text.

ghost use Rattle.std.specs.Prelude.{◌≡◌, ◌∷◌, ◌++◌, [], IfNone, IfSome, drop, length};
ghost use Rattle.operator_text.specs.Page.{pushed_all};
ghost use Rattle.operator_text.specs.Pages.{page_from};
ghost use Rattle.node_reports.specs.Text.{lines_of};

use arrayvec::ArrayVec;
use field_text::cut_at;
use operator_text::{MAX_PAGE_LEN, Page, pages_are_read};

/// Returns the first line of a text, with its LF, and the text behind it, or None if the text has no LF.
fn first_line(text: &[u8]) -> Option<(&[u8], &[u8])>
    ensures some { IfSome result (λ cut. lines_of text.now ≡ cut.0.now ∷ lines_of cut.1.now) }
    ensures none { IfNone result (lines_of text.now ≡ []) }
    ensures parts { IfSome result (λ cut. text.now ≡ cut.0.now ++ cut.1.now) }
{
    let (_, behind) = cut_at(text, b'\n')?;
    let len = text.len() - behind.len();
    Some((&text[..len], behind))
}

/// Returns a text without its first lines, of which there are `number`.
fn behind_lines(text: &[u8], number: u32) -> &[u8]
    ensures { lines_of result.now ≡ drop number (lines_of text.now) }
{
    let mut rest = text;
    for _ in 0..number {
        match first_line(rest) {
            Some((_, behind)) => rest = behind,
            None => return b"",
        }
    }
    rest
}

/// Pushes the lines of a text to a page, until one does not fit.
fn push_lines(page: &mut Page, text: &[u8])
    ensures { page.new ≡ pushed_all page.old (lines_of text.now) }
{
    let mut rest = text;
    while let Some((line, behind)) = first_line(rest) {
        if !page.push(line) {
            return;
        }
        rest = behind;
    }
}

/// Returns the page of a report that begins with the line `from`. `text` is the text of all its lines.
pub fn page_of_text(text: &[u8], from: u32) -> ArrayVec<u8, MAX_PAGE_LEN>
    ensures { result.items ≡ page_from (lines_of text.now) from }
{
    pages_are_read();
    let mut page = Page::new(from);
    push_lines(&mut page, behind_lines(text, from));
    page.finish()
}
