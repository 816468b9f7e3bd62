//! Laws of the data of pages.
ghost use Rattle.lc_page.specs.Unmarked.{NoneHasMarkup};

/// No data of a page have markup, whatever they say: none of the bytes `&`, `<` and `>`.
pub fn no_data_have_markup()
    ensures { NoneHasMarkup }
{}
