ghost use Rattle.std.specs.Prelude.{◌≡◌, ◌↔◌, ◌+◌, ◌^◌, ◌<◌, ◌≤◌, IsTrue, ℕ, List, None, Some, drop, length};
ghost use Rattle.std.specs.List.{concat};
ghost use Rattle.operator_text.specs.Page.{AreLines, PageRecord, fitting, new_part, page_for, page_of, page_text, part_text, pushed_all};
ghost use Rattle.operator_text.specs.Pages.{are_whole, joined, pages_of};
ghost use Rattle.operator_text.specs.Reading.{page_at};
ghost use Rattle.operator_text.specs.Reply.{reply_at, reply_text};
ghost use Rattle.operator_text.specs.Request.{IsWish, Wish, request_at, request_text};
ghost use Rattle.operator_text.specs.declared.reply.Reply.{Reply};

/// One spelling: the reader accepts exactly the texts that the writer writes, and reads each as what was written.
///
/// Two texts with the same reading are therefore the same bytes.
pub fn requests_have_one_spelling()
    ensures reading { (text : List ℕ) (wish : Wish)
        → (request_at text ≡ Some wish) ↔ (IsWish wish × (text ≡ request_text wish)) }
    ensures len { (wish : Wish) → IsWish wish → length (request_text wish) ≤ 71 }
{}

/// Replies: the reader of replies accepts exactly the texts that the writer writes, and none of them is a page.
pub fn replies_are_no_pages()
    ensures reading { (text : List ℕ) (reply : Reply) → (reply_at text ≡ Some reply) ↔ (text ≡ reply_text reply) }
    ensures pages { (reply : Reply) → page_at (reply_text reply) ≡ None }
{}

/// Pages: pushes of lines make their page. It has at most 1,024 bytes, and is read as it was made.
pub fn pages_are_read()
    ensures pushed { (from : ℕ) (lines : List (List ℕ)) →
        part_text (pushed_all (new_part from) lines) ≡ page_of from lines }
    ensures len { (from : ℕ) (lines : List (List ℕ)) → from < 2 ^ 32 → length (page_of from lines) ≤ 1024 }
    ensures read { (from : ℕ) (lines : List (List ℕ)) → from < 2 ^ 32 → AreLines lines →
        page_at (page_of from lines) ≡ Some (page_for from lines) }
    // bytes that are read are spelled as their page is, so that no two have the same reading
    ensures spelled { (bytes : List ℕ) (page : PageRecord) → page_at bytes ≡ Some page → bytes ≡ page_text page }
{}

/// Whole reports: the pages of a report, put together, are its lines in their order.
///
/// The last page says that it is the last one. Each page has a line if one is left, so that a client makes progress.
pub fn pages_are_the_report()
    ensures joined { (lines : List (List ℕ)) → AreLines lines → joined (pages_of lines) ≡ concat lines }
    ensures whole { (lines : List (List ℕ)) → AreLines lines → IsTrue (are_whole (pages_of lines)) }
    ensures onward { (lines : List (List ℕ)) (from : ℕ) → AreLines lines → from < length lines →
        0 < length (fitting 0 from (drop from lines)) }
{}
