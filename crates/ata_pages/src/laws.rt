//! Laws of what the texts say: each function is empty, and its clause is the law.
ghost use Rattle.ata_pages.specs.Telling.{TellsError, TellsWords};

/// The value that the text of an identify page has at a word is that of the table, for every disk.
pub fn an_identify_text_tells_each_word_of_the_table()
    ensures { TellsWords }
{}

/// The tag, the error and the LBA in the text of a log's page are those that the page was made for.
pub fn a_log_text_tells_its_error()
    ensures { TellsError }
{}
