// The laws of words for moments, of clocks, and of books.
ghost use Rattle.book_lines.specs.GoOn.{BooksGoOn};
ghost use Rattle.book_lines.specs.Laws.{DatesAreRead, MomentsAreRead, OthersAreNotRead, ZonesShowLocalTime};
ghost use Rattle.book_lines.specs.WordsFor.{WordsAsk};

/// Each moment is read from its own word.
pub fn law_moments_are_read()
    ensures { MomentsAreRead }
{}

/// A date alone is read as the first second of its day, or as the last.
pub fn law_dates_are_read()
    ensures { DatesAreRead }
{}

/// Each word that is read as a moment is that moment's own word, or the date of its day.
pub fn law_other_words_are_not_read()
    ensures { OthersAreNotRead }
{}

/// Words ask for options exactly where they are those of each option, one behind the other.
pub fn law_words_ask()
    ensures { WordsAsk }
{}

/// What a clock by the rule of a zone shows is local time in it.
pub fn law_zones_show_local_time()
    ensures { ZonesShowLocalTime }
{}

/// A book up to a record, and behind it the book from the next one on, are the whole book.
pub fn law_books_go_on()
    ensures { BooksGoOn }
{}
