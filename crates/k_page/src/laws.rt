//! What holds of pages: each function's contract is a law, and its body does nothing.
ghost use Rattle.k_page.specs.Laws.{EscapedIsText, HtmlIsEnded, LargePageIsHtml, PageIsHtml, TextIsNoMarkup};

/// No source, no file's name and no name in a profile can put a tag or an attribute into a page.
pub fn nothing_becomes_markup()
    ensures escaped { EscapedIsText }
    ensures page { PageIsHtml }
    ensures large { LargePageIsHtml }
{}

/// What a reader makes of texts and of HTML: nothing in a text begins a tag, and each tag of HTML is ended.
pub fn html_is_read()
    ensures text { TextIsNoMarkup }
    ensures html { HtmlIsEnded }
{}
