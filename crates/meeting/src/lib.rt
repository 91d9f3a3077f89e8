// What the term meeting reads: the rows of the table of figures, in words.
#![tactic(auto)]

ghost use Rattle.std.specs.Prelude.{◌≡◌, []};
ghost use Rattle.listing.specs.Texts.{text_of, with_all};
ghost use Rattle.meeting.specs.Rows.{count_row, row_of, share_row};

use listing::Text;
use share::Share;
use totals::Totals;

// The rows of the table, in their order.
#[derive(Drop)]
pub enum Row {
    BooksRead,
    BooksRefused,
    Begun,
    Committed,
    BackedOut,
    StillOpen,
    OfThoseBegun,
}

// A row of some words and a number.
fn count_row(words: &[u8], n: u64) -> Text
    ensures { text_of result ≡ with_all [] (count_row words.now n) }
{
    Text::empty().word(words).number(n as usize).end()
}

// The row of the share.
fn share_row(share: Share) -> Text
    ensures { text_of result ≡ with_all [] (share_row share) }
{
    let part = share.part as usize;
    let whole = share.whole as usize;
    Text::empty()
        .word(b"share backed out ")
        .number(part)
        .word(b" of ")
        .number(whole)
        .end()
}

// A row of the table for these totals.
pub fn row_line(totals: Totals, row: Row) -> Text
    ensures { text_of result ≡ with_all [] (row_of totals row) }
{
    match row {
        Row::BooksRead => count_row(b"books read ", totals.books),
        Row::BooksRefused => count_row(b"books refused ", totals.refused),
        Row::Begun => count_row(b"moves begun ", totals.begun),
        Row::Committed => count_row(b"moves committed ", totals.committed),
        Row::BackedOut => count_row(b"moves backed out ", totals.backed),
        Row::StillOpen => count_row(b"moves still open ", totals.unsettled),
        Row::OfThoseBegun => share_row(totals.share()),
    }
}
